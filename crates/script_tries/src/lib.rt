//! What the scripts of a scenario try beside a host's cores, and how they go on by the replies: definitions and laws.
#![tactic(auto)]

mod laws;

pub use laws::{
    answers_tell_replies, own_sockets_are_seen, scripts_try_once, tried_scripts_go_on,
    tries_are_independent, tries_keep_names, tries_stand,
};
