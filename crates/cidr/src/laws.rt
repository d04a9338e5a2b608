//! Laws of the types, each as the contract of a function that does nothing. After a call, a caller's proof has the
//! law; a program that runs needs none of these.

pub mod addresses;
pub mod clones;
pub mod errors;
pub mod hosts;
pub mod loose_texts;
pub mod networks;
pub mod parsers;
pub mod walks;
