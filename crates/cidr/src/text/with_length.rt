//! Values that are printed with their length.
ghost use Rattle.std.specs.Prelude.{◌≡◌};

use std::marker::Model;

/// A value that is always printed with its prefix length, also where that is full: /32 in IPv4 and /128 in IPv6.
///
/// The calls `with_length` of networks, hosts and pairs make it, and `to_text` or `{}` prints it. 192.0.2.1/32 is
/// printed as `192.0.2.1`, and through this as `192.0.2.1/32`.
#[derive(Clone, Copy)]
pub struct WithLength<T> {
    value: T,
}

impl<T> Model for WithLength<T> {
    ghost Value = { T };

    ghost view = { λ w. w.value };

    ghost inverse = { λ value. record { value = value } };
}

impl<T> WithLength<T> {
    pub(crate) fn new(value: T) -> WithLength<T>
        ensures { result ≡ value }
    {
        WithLength { value }
    }

    /// What is printed.
    pub(crate) fn get(&self) -> &T
        ensures { result.now ≡ self.now }
    {
        &self.value
    }
}
