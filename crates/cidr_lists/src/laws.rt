//! Laws, each as the contract of a function that changes nothing. After a call, a caller's proof has the law; a program
//! that runs needs none of these.
ghost use Rattle.std.specs.Prelude.{◌≡◌, [], ◌∷◌, ◌==◌, ℕ, Bool, List, ◌++◌, Contains, Option, get_or, map, option_to_list};
ghost use Rattle.std.specs.List.{AllZip, flat_map, slice_split};
ghost use Rattle.cidr.specs.declared.cidr.combined.IpCidr.{IpCidr};
ghost use Rattle.cidr.specs.declared.family.Family.{Family};
ghost use Rattle.cidr_routes.specs.declared.lists.Row.{Row};
ghost use Rattle.cidr_table.specs.model.Cover.{IsReduced};
ghost use Rattle.cidr_lists.specs.Changes.{printed_changes};
ghost use Rattle.cidr_lists.specs.Fields.{field_at};
ghost use Rattle.cidr_lists.specs.Formats.{bare, styled};
ghost use Rattle.cidr_lists.specs.Json.{IsStringText, quote};
ghost use Rattle.cidr_lists.specs.LookUps.{LookUp, look_object};
ghost use Rattle.cidr_lists.specs.Lists.{IsNetworkBy, Text, ListSays, text_by};
ghost use Rattle.cidr_lists.specs.ReadBack.{AreOfFamilies, AreUnions, ChangeTells, IsLookUp, ObjectTells, SaysJust, TellsJust, TellsLooks};
ghost use Rattle.cidr_lists.specs.RowLines.{HasJustRows, IsListName, IsRowOf, row_lines};
ghost use Rattle.cidr_lists.specs.Sets.{networks_of, printed_sets};
ghost use Rattle.cidr_lists.specs.declared.changes.Sign.{Sign};
ghost use Rattle.cidr_lists.specs.declared.columns.Separator.TheVariants.{Byte};
ghost use Rattle.cidr_lists.specs.declared.formats.Format.TheVariants.{Json, Plain};
ghost use Rattle.cidr_lists.specs.declared.formats.LineFormat.TheVariants.{Json as JsonLines};
ghost use Rattle.cidr_lists.specs.declared.lines.HostBits.{HostBits};

use crate::sets::Sets;

/// A string is one network at most, in each way of reading networks.
pub fn a_string_is_one_network()
    ensures { (bits : HostBits) (text : List ℕ) (m n : IpCidr) → IsNetworkBy bits text m → IsNetworkBy bits text n → m ≡ n }
{}

/// What is printed of networks, read as a list, says these networks, in each way of reading networks: printed networks
/// have no host bits and no masks.
pub fn printed_networks_are_read()
    ensures { (bits : HostBits) (networks : Family → List (List Bool)) → AreOfFamilies networks
        → SaysJust (text_by bits (printed_sets networks)) networks }
{}

/// What is printed of the set of some lists, read as a list, says the networks of that set.
pub fn printed_unions_are_read()
    ensures { (bits : HostBits) (texts : List Text) (lists : List (List (List IpCidr))) (networks : Family → List (List Bool))
        → AllZip ListSays texts lists → AreUnions lists networks → SaysJust (text_by bits (printed_sets networks)) networks }
{}

/// What is printed of the set of some lists is what is printed of the set of that text as a list: merged again, a list
/// stays the same.
pub fn merging_again_changes_nothing()
    ensures { (bits : HostBits) (texts : List Text) (lists : List (List (List IpCidr))) (networks again : Family → List (List Bool))
        (said : List (List IpCidr)) → AllZip ListSays texts lists → AreUnions lists networks
        → ListSays (text_by bits (printed_sets networks)) said → AreUnions (said ∷ []) again
        → printed_sets again ≡ printed_sets networks }
{}

/// What the plain format prints of networks, with nothing in front of them and nothing behind, says these networks,
/// read as a list.
pub fn plain_format_is_read()
    ensures { (bits : HostBits) (networks : Family → List (List Bool)) → AreOfFamilies networks
        → SaysJust (text_by bits (styled (bare Plain) networks)) networks }
{}

/// Each line of what is printed of networks as JSON tells its network, by the string of the member `network`: IPv4
/// before IPv6, in their order, and there are no other lines.
pub fn json_is_read()
    ensures { (networks : Family → List (List Bool)) → AreOfFamilies networks
        → TellsJust ObjectTells (styled (bare Json) networks) networks }
{}

/// Each line of what is printed of changes as JSON tells its change, the sign by the string of the member `change` and the
/// network by that of `network`: IPv4 before IPv6, in their order, and there are no other lines.
pub fn json_changes_are_read()
    ensures { (changes : Family → List (Sign × List Bool)) → AreOfFamilies (λ family. map (λ change. change.1) (changes family))
        → TellsJust ChangeTells (printed_changes JsonLines changes) changes }
{}

/// Each object of JSON that is printed of look-ups tells its address, and the value and the network that were found: in their
/// order, and there are no other lines.
pub fn look_objects_are_read()
    ensures { (looks : List (Option LookUp)) → ((look : LookUp) → Contains (flat_map option_to_list looks) look → IsLookUp look)
        → TellsLooks (flat_map look_object looks) (flat_map option_to_list looks) }
{}

/// A text is a string of JSON of one value at most, however bytes are written in it, and ends at the quote behind it.
pub fn a_string_says_one_value()
    ensures { (text other rest behind value another : List ℕ) → IsStringText text value → IsStringText other another
        → text ++ quote ∷ rest ≡ other ++ quote ∷ behind → value ≡ another }
{}

/// The fields of a line between bytes are the parts into which these cut it, in their order, and behind the last part
/// each field is empty.
pub fn fields_are_parts()
    ensures { (byte place : ℕ) (line : List ℕ) → field_at (Byte byte) place line ≡ get_or (slice_split (λ b. b == byte) line) place [] }
{}

/// What is printed of the rows of a prefix list, read as the list of its name, says these rows and no others, where the lengths
/// of each are in order.
pub fn printed_rows_are_read()
    ensures { (family : Family) (name : List ℕ) (rows : List (Row (List Bool))) → IsListName name
        → ((row : Row (List Bool)) → Contains rows row → IsRowOf family row)
        → HasJustRows (row_lines family (λ p. p) name rows) name family rows }
{}

/// The networks of sets are the shortest lists of their addresses.
pub(crate) fn sets_are_reduced(sets: &Sets)
    ensures { (family : Family) → IsReduced 129 (networks_of sets.now family) }
{
    sets.v4.as_slice();
    sets.v6.as_slice();
}
