//! The bytes of values and keys in structure files. Byte order is key order.
#![tactic(auto)]

mod fields;
mod keys;
mod laws;
#[cfg(test)]
mod tests;

pub use fields::put_field;
pub use keys::{key_bytes, max_key};
pub use laws::{order_law, prefix_law, width_law};
