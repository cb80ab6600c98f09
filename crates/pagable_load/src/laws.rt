//! The laws of values that were read under a key: each law is a clause of a function that does
//! nothing.

ghost use Rattle.pagable_load.specs.Keyed.{LeavesAreRight, TreesAreRight};

use pagable_theorems::runs::SeenAs;

/// States what a value that was read under a key (`IsKeyed`) stands for, whatever the storage did
/// and whatever others did to the pager meanwhile: the tree that a store of blobs, each under its
/// own hash, has under the key. The store may be another than the one that was read from. It is
/// asked that the blob that was read and the store's aren't two with one hash.
///
/// - A value whose key has a blob without references: nothing else is asked.
/// - Any other value, if the nodes of its references stand for the trees of their keys, which is
///   what those vouch for who put the nodes into the cache.
pub fn reads_are_keyed<N: SeenAs<B, W>, B, W, E>()
    ensures leaves { LeavesAreRight E N.seen.values }
    ensures trees { TreesAreRight E N.seen.values }
{}
