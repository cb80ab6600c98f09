//! The blocks of a message with its padding.

ghost use Rattle.sha256_lanes.specs.Blocks.{IsTail, block_count, block_of};
ghost use Rattle.sha2.specs.Sha256.{padded_message};
ghost use Rattle.std.specs.Prelude.{length, ◌<◌, ◌≡◌};

/// Returns how many blocks of 64 bytes a message has with its padding: one up to 55 bytes, two up to
/// 119, and so on.
pub fn count_blocks(message: &[u8]) -> usize
    ensures { result ≡ block_count (length message.now) }
{
    (message.len() + 8) / 64 + 1
}

/// Returns the bytes after the last whole block of a message, and the padding: they make up the
/// first block of the result, or both.
pub(crate) fn make_tail(message: &[u8]) -> [u8; 128]
    ensures { IsTail message.now result }
{
    let rest = message.len() % 64;
    let end = (rest + 8) / 64 * 64 + 64;
    let mut tail = [0; 128];
    tail[..rest].copy_from_slice(&message[message.len() - rest..]);
    tail[rest] = 0x80;
    tail[end - 8..end].copy_from_slice(&(message.len() as u64).wrapping_mul(8).to_be_bytes());
    tail
}

/// Returns a block of a message, or of its tail.
pub(crate) fn find_block<'a>(message: &'a [u8], tail: &'a [u8; 128], number: usize) -> &'a [u8]
    requires within { number < block_count (length message.now) }
    requires tail { IsTail message.now tail.now }
    ensures value { result.now ≡ block_of message.now number }
    ensures length { length result.now ≡ 64 }
{
    let whole = message.len() / 64;
    if number < whole {
        &message[64 * number..64 * number + 64]
    } else {
        &tail[64 * (number - whole)..64 * (number - whole) + 64]
    }
}
