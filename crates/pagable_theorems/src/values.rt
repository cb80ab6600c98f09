//! The laws of the definitions of values: each law is a clause of a function that does nothing.
#![tactic(auto, using(crate::proofs::Laws::value_laws))]

ghost use Rattle.pagable_theorems.specs.{
  FormLaws.{CanonicalHasOneForm, FaultStays, FloatHasNoForm, FormIsReadBack, FrontReadsAlike, HashMapHasAnyOrder},
  FormLaws.{IsOneItemKey, IsPrefixFree, KeepsForms, ReadsAlikeForAnyReferences, ReadsWhatOtherReads, RenamesLookUps},
  FormLaws.{ReplacesBeforeLookUp, SameKeysMeanSame, TreeLaws, UsedPartReadsAlone, WholeIsBounded},
};
ghost use Rattle.pagable_value_spec.specs.{Canonical.{IsReadable, Throughout}, Shape.Shape};
ghost use Rattle.std.specs.Prelude.{ℕ};

/// States the laws of forms (the encodings of meanings) and of the keys of maps.
///
/// - A form of a shape that is readable throughout is read back, whatever follows it.
/// - No form of one meaning in such a shape is a prefix of another's.
/// - A meaning of a canonical shape has at most one form.
/// - A form of a value that holds references of one sort is a form of the same value with
///   references of another sort.
/// - Keys are the same exactly if they mean the same.
/// - The entries of a hash map have the same meaning in any order.
/// - A JSON float has no form, whatever its value.
/// - A whole JSON number that has a form fits 64 bits with a sign.
pub fn form_laws<A, B>()
    ensures form_is_read_back { (parts : ℕ → Shape) (s : Shape) → Throughout IsReadable parts s
        → FormIsReadBack A B parts s }
    ensures is_prefix_free { (parts : ℕ → Shape) (s : Shape) → Throughout IsReadable parts s → IsPrefixFree A parts s }
    ensures canonical_has_one_form { CanonicalHasOneForm A }
    ensures keeps_forms { KeepsForms A B }
    ensures same_keys_mean_same { SameKeysMeanSame A }
    ensures hash_map_has_any_order { HashMapHasAnyOrder A }
    ensures float_has_no_form { FloatHasNoForm A }
    ensures whole_is_bounded { WholeIsBounded A }
{}

/// States the laws of reading, whatever stands for references.
///
/// - What is read from a prefix of the input is read from the whole, whatever follows.
/// - The part that was used, alone, reads as the same value and leaves nothing.
/// - A fault stays the first fault whatever follows, unless it is that bytes or references end.
/// - Reading gives the same whatever stands for references.
/// - Replacing what stands for references before reading is the same as replacing it in the
///   look-up.
/// - Renaming the results of look-ups is the same as renaming what was read.
/// - What one reader reads, another reads too, if its look-ups find all that the first's found.
pub fn reading_laws<A, B, C, D>()
    ensures front_reads_alike { FrontReadsAlike A B }
    ensures used_part_reads_alone { UsedPartReadsAlone A B }
    ensures fault_stays { FaultStays A B }
    ensures reads_alike_for_any_references { ReadsAlikeForAnyReferences A B C D }
    ensures replaces_before_look_up { ReplacesBeforeLookUp A B C }
    ensures renames_look_ups { RenamesLookUps A B D }
    ensures reads_what_other_reads { ReadsWhatOtherReads A B C D }
{}

/// States the laws of trees, their keys and the store: each field of `TreeLaws` is a law. Also: a
/// canonical item has at most one key.
pub fn tree_laws()
    ensures all { TreeLaws }
    ensures is_one_item_key { IsOneItemKey }
{}
