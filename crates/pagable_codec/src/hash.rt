//! Hashes that make keys.

ghost use Rattle.std.specs.Prelude.{List, length, map, ℕ, [], ◌++◌, ◌≡◌};

/// A hash of 16 bytes. Its result depends on the bytes it was given, not on how calls cut them.
pub trait KeyHash: Sized {
    // The hash was given these bytes.
    ghost has_input: { Self → List ℕ → Type 0 };

    // The hash of bytes.
    ghost digest: { List ℕ → List ℕ };

    /// Creates a hash that was given no bytes.
    fn new() -> Self
        ensures { has_input result [] };

    /// Adds bytes to the hash's input.
    fn update(&mut self, bytes: &[u8])
        ensures { (front : List ℕ) → has_input self.old front → has_input self.new (front ++ bytes.now) };

    /// Returns the hash of all bytes that it was given.
    fn finish(self) -> [u8; 16]
        ensures { (all : List ℕ) → has_input self all → result ≡ digest all };

    /// Hashes many messages: sets each digest to the hash of the message at the same place. The default
    /// implementation hashes one message after another; a hash that computes several at once in less
    /// time has its own.
    fn digest_many(messages: &[&[u8]], digests: &mut [[u8; 16]])
        requires { length messages.now ≡ length digests.old }
        ensures { digests.new ≡ map (λ message. digest message.now) messages.now }
    {
        for (place, message) in messages.iter().enumerate() {
            let mut hash = Self::new();
            hash.update(message);
            digests[place] = hash.finish();
        }
    }
}
