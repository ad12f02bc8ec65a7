//! Compact texts of JSON values, appended to bytes without a tree.
//!
//! Each function appends the text that the value's tree would be written as. After a want of memory some first part of
//! it may stand there, so who writes a line throws the bytes away.
#![tactic(auto)]

mod put;

pub use put::{
    put_boolean, put_comma, put_integer, put_natural, put_naturals, put_null, put_string,
};
