//! The rows of a batch: for each blob its key, how many child keys its body begins with, and how
//! many bytes stand behind them; for each name the key that it stands for, and the name.

ghost use Rattle.blob_file.specs.Rows.{is_name, name_len, row_bytes, row_len, row_of, size_of_place, size_of_row};
ghost use Rattle.std.specs.Option.{SomeIff};
ghost use Rattle.std.specs.Prelude.{IfNone, IfSome, OnErr, OnOk, drop, length, take};
ghost use Rattle.std.specs.Prelude.{◌*◌, ◌++◌, ◌-◌, ◌<◌, ◌^◌, ◌≡◌, ◌≤◌};

use std::alloc::AllocError;

/// How many bytes a row has, without a name.
pub const ROW: usize = 24;

/// What a name's row has in place of a number of child keys.
pub const NAME: u32 = u32::MAX;

/// What the 24 bytes at the front of a row say: of a blob, or of a name that stands behind them.
#[derive(Clone, Copy, Debug, PartialEq, Eq)]
pub struct Row {
    /// The blob's, or the one that the name stands for, with 0 for none.
    pub key: u128,
    /// How many child keys the body begins with, of 16 bytes each, or `NAME`.
    pub children: u32,
    /// How many bytes the body has behind them, or the name.
    pub bytes: u32,
}

/// Where the body of a blob stands in a file.
#[derive(Clone, Copy, Debug, PartialEq, Eq)]
pub struct Place {
    pub at: usize,
    /// How many child keys the body begins with, of 16 bytes each.
    pub children: u32,
    /// How many bytes the body has behind them.
    pub bytes: u32,
}

impl Row {
    /// Returns whether the row is a name's.
    pub fn is_name(&self) -> bool
        ensures { result ≡ is_name self.now }
    {
        self.children == NAME
    }

    /// Returns how many bytes of a name stand behind the row.
    pub fn name_len(&self) -> usize
        ensures { result ≡ name_len self.now }
    {
        if self.is_name() {
            self.bytes as usize
        } else {
            0
        }
    }

    /// Returns how many bytes the body of a blob's row has.
    pub fn size(&self) -> u64
        ensures { result ≡ size_of_row self.now }
    {
        16 * u64::from(self.children) + u64::from(self.bytes)
    }
}

impl Place {
    /// Returns how many bytes the body has.
    pub fn size(&self) -> u64
        ensures { result ≡ size_of_place self.now }
    {
        16 * u64::from(self.children) + u64::from(self.bytes)
    }
}

/// Writes a row, or a part of it where memory is out.
fn extend_row(rows: &mut Vec<u8>, row: Row, name: &[u8]) -> Result<(), AllocError>
    ensures ok { OnOk result (rows.new.items ≡ rows.old.items ++ (row_bytes row ++ name.now)) }
    ensures front { take (length rows.old.items) rows.new.items ≡ rows.old.items }
{
    rows.extend_from_slice(&row.key.to_le_bytes())?;
    rows.extend_from_slice(&row.children.to_le_bytes())?;
    rows.extend_from_slice(&row.bytes.to_le_bytes())?;
    rows.extend_from_slice(name)?;
    Ok(())
}

/// Writes a row, with a name behind it if it is a name's.
pub fn push_row(rows: &mut Vec<u8>, row: Row, name: &[u8]) -> Result<(), AllocError>
    ensures ok { OnOk result (rows.new.items ≡ rows.old.items ++ (row_bytes row ++ name.now)) }
    ensures err { OnErr result (rows.new.items ≡ rows.old.items) }
{
    let len = rows.len();
    match extend_row(rows, row, name) {
        Ok(()) => Ok(()),
        Err(refused) => {
            rows.truncate(len);
            Err(refused)
        }
    }
}

/// Makes the row of a blob whose body has `len` bytes, unless it is 4 GiB or longer behind its
/// child keys, or has 2^32 - 1 of them.
pub fn make_row(key: u128, children: u32, len: usize) -> Option<Row>
    requires { 16 * children ≤ len }
    ensures { SomeIff result ((len - 16 * children < 2 ^ 32) × (children < 4294967295))
        (record { key = key; children = children; bytes = len - 16 * children }) }
{
    let bytes = len - 16 * children as usize;
    if bytes < 1 << 32 && children < NAME {
        Some(Row {
            key,
            children,
            bytes: bytes as u32,
        })
    } else {
        None
    }
}

/// Makes the row of a name of `len` bytes, unless it is 4 GiB or longer.
pub fn make_name_row(key: u128, len: usize) -> Option<Row>
    ensures { SomeIff result (len < 2 ^ 32) (record { key = key; children = 4294967295; bytes = len }) }
{
    if len < 1 << 32 {
        Some(Row {
            key,
            children: NAME,
            bytes: len as u32,
        })
    } else {
        None
    }
}

/// Reads the row that these 24 bytes are.
pub fn read_row(bytes: &[u8]) -> Row
    requires { length bytes.now ≡ 24 }
    ensures { result ≡ row_of bytes.now }
{
    let mut key = [0; 16];
    key.copy_from_slice(&bytes[..16]);
    let mut children = [0; 4];
    children.copy_from_slice(&bytes[16..20]);
    let mut size = [0; 4];
    size.copy_from_slice(&bytes[20..24]);
    Row {
        key: u128::from_le_bytes(key),
        children: u32::from_le_bytes(children),
        bytes: u32::from_le_bytes(size),
    }
}

/// Splits rows behind the first: what it says, its name, and the rows behind it; None if it isn't
/// whole.
pub fn split_row(rows: &[u8]) -> Option<(Row, &[u8], &[u8])>
    ensures row { IfSome result (λ it. it.0 ≡ row_of rows.now) }
    ensures name { IfSome result (λ it. it.1.now ≡ drop 24 (take (row_len rows.now) rows.now)) }
    ensures behind { IfSome result (λ it. it.2.now ≡ drop (row_len rows.now) rows.now) }
    ensures whole { IfSome result (λ it. row_len rows.now ≤ length rows.now) }
    ensures short { IfNone result (length rows.now < row_len rows.now) }
{
    if rows.len() < ROW {
        return None;
    }
    let (front, rest) = rows.split_at(ROW);
    let row = read_row(front);
    let len = row.name_len();
    if rest.len() < len {
        return None;
    }
    let (name, behind) = rest.split_at(len);
    Some((row, name, behind))
}
