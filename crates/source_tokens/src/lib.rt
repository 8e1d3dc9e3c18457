//! What a C++ source is made of: its tokens, comments, spaces and directives, with their places.
#![tactic(auto)]

mod class;
mod comment;
mod kind;
pub mod laws;
mod line_parts;
mod literal;
mod number;
mod opening;
mod plain;
mod raw_string;
mod run;
mod source;
mod splice;
mod token;

pub use kind::TokenKind;
pub use raw_string::delimiter_length;
pub use source::{parts, tokens};
pub use splice::past_splices;
pub use token::{Token, TokenList};
