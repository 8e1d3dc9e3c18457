//! Packed numbers: a code of four bits, and bytes.
#![tactic(auto)]

mod laws;
mod pack;
mod unpack;

pub use laws::{
    code_tells_the_length, form_has_one_number, front_has_one_number, number_has_one_form,
    signed_numbers, unsigned_numbers,
};
pub use pack::{Packed, pack_signed, pack_unsigned};
pub use unpack::{UnpackFault, signed_len, unpack_signed, unpack_unsigned, unsigned_len};
