//! Page sizes and hash kinds by their names.

use sdbm_addr::{KeyBytes, PageSize};

/// Reads `Small` or `Wide`.
pub fn read_size(word: &str) -> Option<PageSize> {
    match word {
        "Small" => Some(PageSize::Small),
        "Wide" => Some(PageSize::Wide),
        _ => None,
    }
}

/// Reads `Signed` or `Unsigned`.
pub fn read_kind(word: &str) -> Option<KeyBytes> {
    match word {
        "Signed" => Some(KeyBytes::Signed),
        "Unsigned" => Some(KeyBytes::Unsigned),
        _ => None,
    }
}
