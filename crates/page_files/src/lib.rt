//! The files of the page, which a server hands out to browsers over plain HTTP: what is answered to the head of a request, and the files of a
//! folder.
#![tactic(auto)]

mod folder;
mod form;
mod head;
mod page;

pub use folder::read_pages;
pub use form::{Form, form_of};
pub use head::asks_socket;
pub use page::{Page, Pages};
