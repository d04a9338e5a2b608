//! Laws, each as the contract of a function that does nothing. After a call, a caller's proof has the law; a program
//! that runs needs none of these.

pub mod covers;
pub mod keys;
pub mod loading;
pub mod look_ups;
