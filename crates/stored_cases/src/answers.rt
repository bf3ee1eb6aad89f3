// What comes of the bytes of a module.

use module_form::{FormCode, FormFault, bytes_again, decode};
use std::alloc::{AllocError, Global};

/// What came of bytes that were decoded and encoded again.
pub fn answer(alloc: Global, bytes: &[u8]) -> Result<String, AllocError> {
    match bytes_again(alloc, bytes) {
        Ok(again) if again.as_slice() == bytes => format!(in alloc; "same {}", bytes.len()),
        Ok(_) => String::from_str(alloc, "other bytes"),
        Err(FormFault::Refused { place, code }) => {
            format!(in alloc; "{} {} {place}", code.number(), code.name())
        }
        Err(FormFault::Memory(_)) => String::from_str(alloc, "memory"),
    }
}

/// Whether bytes are refused as a module that ends too soon, behind the last of them.
fn is_cut(alloc: Global, bytes: &[u8]) -> bool {
    match decode(alloc, bytes) {
        Err(
            FormFault::Refused {
                place,
                code: FormCode::Short,
            },
        ) => place == bytes.len() as u64,
        _ => false,
    }
}

/// How many of the beginnings of bytes, which are not all of them, are refused as cut there.
pub fn cuts(alloc: Global, bytes: &[u8]) -> usize {
    let mut count = 0usize;
    for len in 0..bytes.len() {
        if is_cut(alloc, &bytes[..len]) {
            count = count.saturating_add(1);
        }
    }
    count
}
