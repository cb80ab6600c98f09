//! Many messages, four at a time. A message waits in the row of those that have as many blocks,
//! until four wait there; what waits in the end is hashed with lanes to spare.

ghost use Rattle.sha256_lanes.specs.{
  Blocks.{block_count},
  Waiting.{AreRows, IsDone, IsRow, IsSettled, IsSettledIn, IsWaiting, KeepsDone, texts_of},
};
ghost use Rattle.sha2.specs.Sha256.{sha256};
ghost use Rattle.std.specs.Prelude.{List, length, map, slice_index, slice_index_or, take, ℕ, [], ◌<◌, ◌≡◌, ◌≤◌};

use crate::digest::digest_four;
use crate::padding::count_blocks;
use sha2::{Digest, Sha256};

/// How many rows there are: a message of more blocks doesn't wait.
const ROWS: usize = 16;

/// Returns the first bytes of a digest.
fn take_front<const N: usize>(digest: &[u8; 32]) -> [u8; N]
    requires { N ≤ 32 }
    ensures { result ≡ take N digest.now }
{
    let mut front = [0; N];
    front.copy_from_slice(&digest[..N]);
    front
}

/// Returns the message at a place.
fn message_at<'a>(messages: &[&'a [u8]], place: usize) -> &'a [u8]
    requires { place < length messages.now }
    ensures { result.now ≡ slice_index_or (texts_of messages.now) place [] }
{
    messages[place]
}

/// Hashes the message at a place by itself.
fn digest_one<const N: usize>(messages: &[&[u8]], digests: &mut [[u8; N]], place: usize)
    requires front { N ≤ 32 }
    requires long { length messages.now ≡ length digests.old }
    requires place { place < length messages.now }
    ensures keeps { KeepsDone N (texts_of messages.now) digests.old digests.new }
    ensures done { IsDone N (texts_of messages.now) digests.new place }
{
    let digest = Sha256::digest(message_at(messages, place));
    digests[place] = take_front(&digest);
}

/// Hashes the messages at the four places of a row.
fn digest_row<const N: usize>(
    messages: &[&[u8]],
    digests: &mut [[u8; N]],
    count: usize,
    row: [usize; 4],
)
    requires front { N ≤ 32 }
    requires long { length messages.now ≡ length digests.old }
    requires row { IsRow (texts_of messages.now) count row 4 }
    ensures keeps { KeepsDone N (texts_of messages.now) digests.old digests.new }
    ensures done { (q : ℕ) → IsWaiting row 4 q → IsDone N (texts_of messages.now) digests.new q }
{
    let [first, second, third, fourth] = row;
    let [a, b, c, d] = digest_four(
        message_at(messages, first),
        message_at(messages, second),
        message_at(messages, third),
        message_at(messages, fourth),
    );
    digests[first] = take_front(&a);
    digests[second] = take_front(&b);
    digests[third] = take_front(&c);
    digests[fourth] = take_front(&d);
}

/// Lets a message wait in a row, and hashes the row if it is the fourth there. Returns how many
/// messages wait in the row then.
fn wait_in_row<const N: usize>(
    messages: &[&[u8]],
    digests: &mut [[u8; N]],
    row: &mut [usize; 4],
    waiting: usize,
    place: usize,
) -> usize
    requires front { N ≤ 32 }
    requires long { length messages.now ≡ length digests.old }
    requires place { place < length messages.now }
    requires waiting { waiting < 4 }
    requires row { IsRow (texts_of messages.now)
        (block_count (length (slice_index_or (texts_of messages.now) place []))) row.old waiting }
    ensures waiting { result < 4 }
    ensures row { IsRow (texts_of messages.now)
        (block_count (length (slice_index_or (texts_of messages.now) place []))) row.new result }
    ensures keeps { KeepsDone N (texts_of messages.now) digests.old digests.new }
    ensures place { IsSettled N (texts_of messages.now) digests.new row.new result place }
    ensures others { (q : ℕ) → IsWaiting row.old waiting q
        → IsSettled N (texts_of messages.now) digests.new row.new result q }
{
    row[waiting] = place;
    if waiting < 3 {
        return waiting + 1;
    }
    digest_row(
        messages,
        digests,
        count_blocks(message_at(messages, place)),
        *row,
    );
    0
}

/// Hashes a message, or lets it wait in the row of those that have as many blocks.
fn take_message<const N: usize>(
    messages: &[&[u8]],
    digests: &mut [[u8; N]],
    rows: &mut [[usize; 4]; ROWS],
    waiting: &mut [usize; ROWS],
    place: usize,
)
    requires front { N ≤ 32 }
    requires long { length messages.now ≡ length digests.old }
    requires place { place < length messages.now }
    requires rows { AreRows (texts_of messages.now) rows.old waiting.old }
    ensures rows { AreRows (texts_of messages.now) rows.new waiting.new }
    ensures keeps { KeepsDone N (texts_of messages.now) digests.old digests.new }
    ensures place { IsSettledIn N (texts_of messages.now) digests.new rows.new waiting.new place }
    ensures others { (q : ℕ) → IsSettledIn N (texts_of messages.now) digests.old rows.old waiting.old q
        → IsSettledIn N (texts_of messages.now) digests.new rows.new waiting.new q }
{
    let count = count_blocks(message_at(messages, place));
    if count > ROWS {
        digest_one(messages, digests, place);
        return;
    }
    let row = count - 1;
    waiting[row] = wait_in_row(messages, digests, &mut rows[row], waiting[row], place);
}

/// Hashes the messages that wait in a row, which are fewer than four. Two or three are hashed at
/// once, with the last one in the lanes that are left: that takes less time than one by one.
fn digest_waiting<const N: usize>(
    messages: &[&[u8]],
    digests: &mut [[u8; N]],
    count: usize,
    row: &[usize; 4],
    waiting: usize,
)
    requires front { N ≤ 32 }
    requires long { length messages.now ≡ length digests.old }
    requires waiting { waiting < 4 }
    requires row { IsRow (texts_of messages.now) count row.now waiting }
    ensures keeps { KeepsDone N (texts_of messages.now) digests.old digests.new }
    ensures done { (q : ℕ) → IsWaiting row.now waiting q → IsDone N (texts_of messages.now) digests.new q }
{
    if waiting == 0 {
        return;
    }
    let last = row[waiting - 1];
    if waiting == 1 {
        digest_one(messages, digests, last);
        return;
    }
    digest_row(messages, digests, count, [row[0], row[1], last, last]);
}

/// Hashes the messages that wait in the rows.
fn digest_left<const N: usize>(
    messages: &[&[u8]],
    digests: &mut [[u8; N]],
    rows: &[[usize; 4]; ROWS],
    waiting: &[usize; ROWS],
)
    requires front { N ≤ 32 }
    requires long { length messages.now ≡ length digests.old }
    requires rows { AreRows (texts_of messages.now) rows.now waiting.now }
    ensures { (q : ℕ) → IsSettledIn N (texts_of messages.now) digests.old rows.now waiting.now q
        → IsDone N (texts_of messages.now) digests.new q }
{
    for row in 0..ROWS {
        digest_waiting(messages, digests, row + 1, &rows[row], waiting[row]);
    }
}

/// Hashes many messages: sets each digest to the first `N` bytes of the SHA-256 digest of the message
/// at the same place. Four messages that have equally many blocks of 64 bytes are hashed at once,
/// wherever they stand.
pub fn digest_many<const N: usize>(messages: &[&[u8]], digests: &mut [[u8; N]])
    requires front { N ≤ 32 }
    requires long { length messages.now ≡ length digests.old }
    ensures { digests.new ≡ map (λ message. take N (sha256 message.now)) messages.now }
{
    let mut rows = [[0; 4]; ROWS];
    let mut waiting = [0; ROWS];
    for place in 0..messages.len() {
        take_message(messages, digests, &mut rows, &mut waiting, place);
    }
    digest_left(messages, digests, &rows, &waiting);
}
