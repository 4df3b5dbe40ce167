//! The rows of listings, each for a pair or a key.
ghost use Rattle.std.specs.Prelude.{◌≡◌, ◌++◌, ◌∷◌, ◌<◌, [], length, IfOk, OnOk, OnErr};
ghost use Rattle.dbm_databases.specs.Rows.{key_line, keys_listing, listing_row, pair_line, pair_object, pair_tokens, pairs_listing, raw, rows, words_object};
ghost use Rattle.sdbm_files.specs.Lent.{pair_lent, pairs_lent};
ghost use Rattle.dbm_stats.specs.Json.{quoted};
ghost use Rattle.dbm_script.specs.Notation.{shown, value_shown};
ghost use Rattle.json.specs.Print.{print};

use byte_text::{Layout, write_text, write_value};
use dbm_script::{Notation, show_bytes, show_value};
use dbm_stats::show_string;
use json::Writer;
use std::alloc::{AllocError, Allocator};

/// The form of the rows of a listing.
#[derive(Clone, Copy)]
pub enum Listing {
    /// A line with key and value.
    Pairs,
    /// The bytes of the key and of the value, each ended by a zero byte.
    RawPairs,
    /// A line with a JSON object.
    Objects,
    /// A line with the key.
    Keys,
    /// The bytes of the key, ended by a zero byte.
    RawKeys,
}

/// Returns the form of the rows of `list`. `json` takes precedence over `null`.
pub fn pairs_listing(null: bool, json: bool) -> Listing
    ensures { result ≡ pairs_listing null json }
{
    if json {
        return Listing::Objects;
    }
    if null {
        return Listing::RawPairs;
    }
    Listing::Pairs
}

/// Returns the form of the rows of `keys`.
pub fn keys_listing(null: bool) -> Listing
    ensures { result ≡ keys_listing null }
{
    if null {
        return Listing::RawKeys;
    }
    Listing::Keys
}

/// Returns the rows of the pairs whose keys begin with a prefix.
///
/// # Errors
/// `AllocError` if allocation fails.
pub fn show_rows<A: Allocator + Copy>(
    alloc: A,
    notation: &Notation<A>,
    listing: Listing,
    prefix: &[u8],
    pairs: &[(&[u8], &[u8])],
) -> Result<Vec<u8, A>, AllocError>
    ensures { IfOk result (λ text. text.items ≡ rows notation.now listing prefix.now (pairs_lent pairs.now)) }
{
    let mut text = Vec::new(alloc);
    for pair in pairs {
        show_chosen(alloc, notation, listing, prefix, pair, &mut text)?;
    }
    Ok(text)
}

/// Appends the row of a pair to `text` if its key begins with a prefix.
///
/// # Errors
/// `AllocError` if allocation fails, which is possible only if there is a row to append.
pub fn show_chosen<A: Allocator + Copy>(
    alloc: A,
    notation: &Notation<A>,
    listing: Listing,
    prefix: &[u8],
    pair: &(&[u8], &[u8]),
    text: &mut Vec<u8, A>,
) -> Result<(), AllocError>
    ensures row { OnOk result (text.new.items ≡ text.old.items ++ rows notation.now listing prefix.now (pair_lent pair.now ∷ [])) }
    ensures some { OnErr result (0 < length (rows notation.now listing prefix.now (pair_lent pair.now ∷ []))) }
{
    let (key, value) = *pair;
    if !key.starts_with(prefix) {
        return Ok(());
    }
    show_row(alloc, notation, listing, key, value, text)
}

// Appends the row of a pair.
fn show_row<A: Allocator + Copy>(
    alloc: A,
    notation: &Notation<A>,
    listing: Listing,
    key: &[u8],
    value: &[u8],
    text: &mut Vec<u8, A>,
) -> Result<(), AllocError>
    ensures { OnOk result (text.new.items ≡ text.old.items ++ listing_row notation.now listing (key.now, value.now)) }
{
    match listing {
        Listing::Pairs => show_line(alloc, notation, key, value, text),
        Listing::RawPairs => show_raw_pair(key, value, text),
        Listing::Objects => show_object(alloc, notation, key, value, text),
        Listing::Keys => show_key(notation, key, text),
        Listing::RawKeys => show_raw(key, text),
    }
}

// Appends a line with a pair.
fn show_line<A: Allocator + Copy>(
    alloc: A,
    notation: &Notation<A>,
    key: &[u8],
    value: &[u8],
    text: &mut Vec<u8, A>,
) -> Result<(), AllocError>
    ensures { OnOk result (text.new.items ≡ text.old.items ++ pair_line notation.now (key.now, value.now)) }
{
    show_bytes(notation, key, text)?;
    text.push(b' ')?;
    show_value(alloc, notation, value, text)?;
    Ok(text.push(b'\n')?)
}

// Appends a line with a key.
fn show_key<A: Allocator>(
    notation: &Notation<A>,
    key: &[u8],
    text: &mut Vec<u8, A>,
) -> Result<(), AllocError>
    ensures { OnOk result (text.new.items ≡ text.old.items ++ key_line notation.now key.now) }
{
    show_bytes(notation, key, text)?;
    Ok(text.push(b'\n')?)
}

// Appends the bytes of a key and a value, each ended by a zero byte.
fn show_raw_pair<A: Allocator>(
    key: &[u8],
    value: &[u8],
    text: &mut Vec<u8, A>,
) -> Result<(), AllocError>
    ensures { OnOk result (text.new.items ≡ text.old.items ++ (raw key.now ++ raw value.now)) }
{
    show_raw(key, text)?;
    show_raw(value, text)
}

// Appends bytes and a zero byte.
fn show_raw<A: Allocator>(bytes: &[u8], text: &mut Vec<u8, A>) -> Result<(), AllocError>
    ensures { OnOk result (text.new.items ≡ text.old.items ++ raw bytes.now) }
{
    text.extend_from_slice(bytes)?;
    Ok(text.push(0)?)
}

// Appends a line with a pair as a JSON object.
fn show_object<A: Allocator + Copy>(
    alloc: A,
    notation: &Notation<A>,
    key: &[u8],
    value: &[u8],
    text: &mut Vec<u8, A>,
) -> Result<(), AllocError>
    ensures { OnOk result (text.new.items ≡ text.old.items ++ pair_object notation.now (key.now, value.now)) }
{
    match notation {
        Notation::Hex | Notation::Text => show_words(alloc, notation, key, value, text),
        Notation::Layout(layout) => show_typed(alloc, layout, key, value, text),
    }
}

// Appends a line with a pair as a JSON object. The value has the numbers and texts of a layout.
fn show_typed<A: Allocator + Copy>(
    alloc: A,
    layout: &Layout<A>,
    key: &[u8],
    value: &[u8],
    text: &mut Vec<u8, A>,
) -> Result<(), AllocError>
    ensures { OnOk result (text.new.items ≡ text.old.items ++ (print (pair_tokens layout.now (key.now, value.now)) ++ 10 ∷ [])) }
{
    let mut writer = Writer::new(Vec::new(alloc));
    write_pair(alloc, &mut writer, layout, key, value)?;
    text.extend_from_slice(writer.into_inner().as_slice())?;
    Ok(text.push(b'\n')?)
}

// Writes a pair as a JSON object. The value has the numbers and texts of a layout.
fn write_pair<A: Allocator + Copy>(
    alloc: A,
    writer: &mut Writer<A>,
    layout: &Layout<A>,
    key: &[u8],
    value: &[u8],
) -> Result<(), AllocError>
    ensures tokens { OnOk result (writer.new.tokens ≡ writer.old.tokens ++ pair_tokens layout.now (key.now, value.now)) }
    ensures before { writer.new.before ≡ writer.old.before }
{
    writer.begin_object()?;
    writer.key("key")?;
    write_text(alloc, writer, key)?;
    writer.key("value")?;
    write_value(alloc, writer, layout, value)?;
    writer.end_object()
}

// Appends a line with a JSON object of two strings: key and value in the notation.
fn show_words<A: Allocator + Copy>(
    alloc: A,
    notation: &Notation<A>,
    key: &[u8],
    value: &[u8],
    text: &mut Vec<u8, A>,
) -> Result<(), AllocError>
    ensures { OnOk result (text.new.items ≡ text.old.items ++ words_object notation.now (key.now, value.now)) }
{
    text.extend_from_slice(b"{\"key\":")?;
    show_quoted_bytes(alloc, notation, key, text)?;
    text.extend_from_slice(b",\"value\":")?;
    show_quoted_value(alloc, notation, value, text)?;
    text.extend_from_slice(b"}\n")
}

// Appends bytes in the notation, as a JSON string.
fn show_quoted_bytes<A: Allocator + Copy>(
    alloc: A,
    notation: &Notation<A>,
    bytes: &[u8],
    text: &mut Vec<u8, A>,
) -> Result<(), AllocError>
    ensures { OnOk result (text.new.items ≡ text.old.items ++ quoted (shown notation.now bytes.now)) }
{
    let mut word = Vec::new(alloc);
    show_bytes(notation, bytes, &mut word)?;
    show_string(word.as_slice(), text)
}

// Appends a value in the notation, as a JSON string.
fn show_quoted_value<A: Allocator + Copy>(
    alloc: A,
    notation: &Notation<A>,
    bytes: &[u8],
    text: &mut Vec<u8, A>,
) -> Result<(), AllocError>
    ensures { OnOk result (text.new.items ≡ text.old.items ++ quoted (value_shown notation.now bytes.now)) }
{
    let mut word = Vec::new(alloc);
    show_value(alloc, notation, bytes, &mut word)?;
    show_string(word.as_slice(), text)
}
