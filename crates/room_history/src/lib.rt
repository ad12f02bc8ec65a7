//! What a room is asked and replies, and what its history makes of it: its matches, its sessions, and the stream of each.
#![tactic(auto)]

mod call;
mod laws;
mod reply;

pub use call::RoomCall;
pub use laws::{
    alike_sessions_are_replied_the_same, alike_sessions_are_sent_the_same,
    attachments_follow_from_replies, calls_leave_others, clears_remove_the_match,
    matches_are_removed_with_their_last_player, rooms_go_by_what_is_held,
    sessions_alike_but_for_takes_are_told_alike, sessions_are_told_their_streams, sessions_go_on,
    sessions_see_their_match, submissions_are_judged_by_what_is_seen,
};
pub use reply::RoomReply;
