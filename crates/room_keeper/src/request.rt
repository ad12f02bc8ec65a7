//! What a request of HTTP asks for, by its head.

/// What is asked for.
#[derive(Clone, Copy, Debug)]
pub enum Request {
    /// The status, as JSON.
    Status,
    /// The same as metrics, as Prometheus reads them.
    Metrics,
    /// Whether the server is there.
    Health,
    /// Another path than these three, by whichever method.
    Elsewhere,
    /// Another method than GET.
    OtherMethod,
    /// No request of HTTP/1.0 or HTTP/1.1.
    Unreadable,
}

/// What a head asks for, by its first line. The query part of its target may be anything.
pub fn request_of(head: &[u8]) -> Request {
    let Some(end) = head.iter().position(|byte| *byte == b'\r') else {
        return Request::Unreadable;
    };
    match str::from_utf8(&head[..end]) {
        Ok(line) => request_in(line),
        Err(_) => Request::Unreadable,
    }
}

/// What the first line of a head asks for.
fn request_in(line: &str) -> Request {
    let Some((method, rest)) = line.split_once(' ') else {
        return Request::Unreadable;
    };
    let Some((target, version)) = rest.split_once(' ') else {
        return Request::Unreadable;
    };
    if method.is_empty() || (version != "HTTP/1.1" && version != "HTTP/1.0") {
        return Request::Unreadable;
    }
    let path = match target.split_once('?') {
        Some((path, _query)) => path,
        None => target,
    };
    match at(path) {
        Some(_) if method != "GET" => Request::OtherMethod,
        Some(request) => request,
        None => Request::Elsewhere,
    }
}

/// What a path gives.
fn at(path: &str) -> Option<Request> {
    match path {
        "/status" => Some(Request::Status),
        "/metrics" => Some(Request::Metrics),
        "/healthz" => Some(Request::Health),
        _ => None,
    }
}
