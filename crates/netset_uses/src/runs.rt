//! Runs of `netset`: what they print, and what they tell of an error.
ghost use Rattle.std.specs.Prelude.{◌≡◌, ◌≢◌, [], ◌∷◌, codes, false, map, IfSome, None, Some};
ghost use Rattle.cidr_lists.specs.declared.fields.Asked.TheVariants.{First};
ghost use Rattle.cidr_lists.specs.Lists.{text_by};
ghost use Rattle.cidr_lists.specs.declared.lines.HostBits.TheVariants.{Refused};
ghost use Rattle.cidr_lists.specs.Formats.{bare};
ghost use Rattle.cidr_lists.specs.Rules.{AreAllShadowLines, ArePermittedLines};
ghost use Rattle.cidr_lists.specs.declared.formats.Format.TheVariants.{Nft};
ghost use Rattle.cidr_lists.specs.declared.formats.LineFormat.TheVariants.{Plain, Json};
ghost use Rattle.cidr_lists.specs.declared.objects.Telling.TheVariants.{Alone, Objects};
ghost use Rattle.netset_commands.specs.Commands.{IsDiff, IsMadeOf};
ghost use Rattle.netset_commands.specs.Look.{IsLook};
ghost use Rattle.netset_commands.specs.declared.commands.operations.Operation.TheVariants.{Merge};
ghost use Rattle.netset_commands.specs.declared.output.answers.Verdict.TheVariants.{Yes, No};
ghost use Rattle.netset_uses.specs.Runs.{AreLinesBySecond, ArePermittedTheSame, GiveSameValues, HasPrinted, HasRun, HasSkipped, HasToldLine, by_second, by_words};
ghost use Rattle.netset_uses.specs.Texts.{contents_of};

use crate::texts::{TextFile, TextFiles, Words};
use cidr_io::memory::Heap;
use cidr_io::sink::{Sink, Tracked};
use cidr_lists::laws::merging_again_changes_nothing;
use netset_commands::output::folder::Sealed;
use netset_commands::program::program;
use std::alloc::Global;

/// What a run has done.
#[derive(Drop)]
pub struct Finished {
    /// Its exit status.
    pub status: u8,
    /// What it has written to standard output.
    pub out: Vec<u8>,
    /// What it has written to standard error.
    pub err: Vec<u8>,
}

/// A run of `netset` with these arguments over these files; `None` where there was no memory for what it writes.
pub fn run(alloc: Global, words: &[&str], files: &[TextFile<'_>]) -> Option<Finished>
    ensures { IfSome result (HasRun (map (λ word. word.now) words.now) (contents_of files.now)) }
{
    let mut memory = Heap::new(alloc);
    let mut out = Tracked::new(Vec::new(alloc));
    let mut err = Tracked::new(Vec::new(alloc));
    let status = program(
        &mut memory,
        &Words { words },
        &TextFiles { files },
        &mut Sealed,
        &mut out,
        &mut err,
    );
    if out.failed() || err.failed() {
        return None;
    }
    Some(Finished {
        status,
        out: out.into_inner(),
        err: err.into_inner(),
    })
}

/// A run of `netset merge list`. With status 0 it has printed the set of the addresses of the list, and with status 2 it
/// has told the first line in error, and printed nothing.
pub fn merge(alloc: Global, list: &[u8]) -> Option<Finished>
    ensures printed { IfSome result (λ run. run.status ≡ 0
        → HasPrinted (IsMadeOf Merge (text_by Refused list.now ∷ [])) run) }
    ensures error { IfSome result (λ run. run.status ≡ 2 → HasToldLine (codes "list") (text_by Refused list.now) run) }
{
    let file = TextFile {
        name: "list",
        bytes: list,
    };
    run(alloc, &["merge", "list"], &[file])
}

/// A run of `netset merge --skip-bad list`. With status 2, if it has printed anything, it has told each line in error of the
/// list, and printed the set of the addresses of the other lines.
pub fn merge_good(alloc: Global, list: &[u8]) -> Option<Finished>
    ensures { IfSome result (λ run. run.status ≡ 2 → run.out.items ≢ []
        → HasSkipped (codes "list") (text_by Refused list.now) (IsMadeOf Merge) run) }
{
    let file = TextFile {
        name: "list",
        bytes: list,
    };
    run(alloc, &["merge", "--skip-bad", "list"], &[file])
}

/// A run of `netset look table file`. With status 0 it has printed a line for each address of the file, with the longest
/// network of the table that has it, and the value of that.
pub fn look(alloc: Global, table: &[u8], file: &[u8]) -> Option<Finished>
    ensures { IfSome result (λ run. run.status ≡ 0
        → HasPrinted (λ answer. IsLook false Alone First (by_words Plain) (text_by Refused table.now) file.now answer Yes) run) }
{
    let files = [
        TextFile {
            name: "table",
            bytes: table,
        },
        TextFile {
            name: "file",
            bytes: file,
        },
    ];
    run(alloc, &["look", "table", "file"], &files)
}

/// A run of `netset look --table-separator , --table-fields 2,1 table file`. With status 0 it has printed a line for each
/// address of the file, with the longest network that has it of those in the second field of a row, and the first field of
/// that row.
pub fn look_by_second(alloc: Global, table: &[u8], file: &[u8]) -> Option<Finished>
    ensures { IfSome result (λ run. run.status ≡ 0
        → HasPrinted (λ answer. IsLook false Alone First by_second (text_by Refused table.now) file.now answer Yes) run) }
{
    let files = [
        TextFile {
            name: "table",
            bytes: table,
        },
        TextFile {
            name: "file",
            bytes: file,
        },
    ];
    run(
        alloc,
        &[
            "look",
            "--table-separator",
            ",",
            "--table-fields",
            "2,1",
            "table",
            "file",
        ],
        &files,
    )
}

/// A run of `netset look --format json table file`. With status 0 it has printed an object of JSON for each address of the
/// file, with the longest network of the table that has it, and the value of that.
pub fn look_as_json(alloc: Global, table: &[u8], file: &[u8]) -> Option<Finished>
    ensures { IfSome result (λ run. run.status ≡ 0
        → HasPrinted (λ answer. IsLook false Objects First (by_words Json) (text_by Refused table.now) file.now answer Yes) run) }
{
    let files = [
        TextFile {
            name: "table",
            bytes: table,
        },
        TextFile {
            name: "file",
            bytes: file,
        },
    ];
    run(
        alloc,
        &["look", "--format", "json", "table", "file"],
        &files,
    )
}

/// A run of `netset acl rules`. With status 0 it has printed the networks that the access list permits.
pub fn acl(alloc: Global, rules: &[u8]) -> Option<Finished>
    ensures { IfSome result (λ run. run.status ≡ 0 → HasPrinted (ArePermittedLines None (text_by Refused rules.now)) run) }
{
    let file = TextFile {
        name: "rules",
        bytes: rules,
    };
    run(alloc, &["acl", "rules"], &[file])
}

/// A run of `netset acl --format nft rules`. With status 0 it has printed these networks as commands for `nft -f`.
pub fn acl_for_nft(alloc: Global, rules: &[u8]) -> Option<Finished>
    ensures { IfSome result (λ run. run.status ≡ 0
        → HasPrinted (ArePermittedLines (Some (bare Nft)) (text_by Refused rules.now)) run) }
{
    let file = TextFile {
        name: "rules",
        bytes: rules,
    };
    run(alloc, &["acl", "--format", "nft", "rules"], &[file])
}

/// A run of `netset diff --format json old new`. With status 1 it has printed an object for each network that one of the
/// lists alone has.
pub fn differences(alloc: Global, old: &[u8], new: &[u8]) -> Option<Finished>
    ensures { IfSome result (λ run. run.status ≡ 1
        → HasPrinted (λ answer. IsDiff Json (text_by Refused old.now) (text_by Refused new.now) answer No) run) }
{
    let files = [
        TextFile {
            name: "old",
            bytes: old,
        },
        TextFile {
            name: "new",
            bytes: new,
        },
    ];
    run(alloc, &["diff", "--format", "json", "old", "new"], &files)
}

/// A run of `netset same old new`. With status 0 both tables give each address the same value, or none, and it has printed
/// nothing.
pub fn same_values(alloc: Global, old: &[u8], new: &[u8]) -> Option<Finished>
    ensures { IfSome result (λ run. run.status ≡ 0
        → HasPrinted (GiveSameValues (text_by Refused old.now) (text_by Refused new.now)) run) }
{
    let files = [
        TextFile {
            name: "old",
            bytes: old,
        },
        TextFile {
            name: "new",
            bytes: new,
        },
    ];
    run(alloc, &["same", "old", "new"], &files)
}

/// A run of `netset acl --shadowed rules`. With status 1 it has told the rules that no address reaches, each with the earlier
/// ones that decide the addresses of its network.
pub fn shadowed(alloc: Global, rules: &[u8]) -> Option<Finished>
    ensures { IfSome result (λ run. run.status ≡ 1
        → HasPrinted (AreAllShadowLines (codes "rules") (text_by Refused rules.now)) run) }
{
    let file = TextFile {
        name: "rules",
        bytes: rules,
    };
    run(alloc, &["acl", "--shadowed", "rules"], &[file])
}

/// A run of `netset acl --diff old rules`. With status 0 both lists permit the same addresses, and it has printed nothing.
pub fn compared(alloc: Global, old: &[u8], rules: &[u8]) -> Option<Finished>
    ensures { IfSome result (λ run. run.status ≡ 0
        → HasPrinted (ArePermittedTheSame (text_by Refused old.now) (text_by Refused rules.now)) run) }
{
    let files = [
        TextFile {
            name: "old",
            bytes: old,
        },
        TextFile {
            name: "rules",
            bytes: rules,
        },
    ];
    run(alloc, &["acl", "--diff", "old", "rules"], &files)
}

/// A run of `netset match --field 2 --separator , list file`. With status 0 it has printed the lines of the file whose
/// second field between commas lies in the list.
pub fn match_second(alloc: Global, list: &[u8], file: &[u8]) -> Option<Finished>
    ensures { IfSome result (λ run. run.status ≡ 0 → HasPrinted (AreLinesBySecond (text_by Refused list.now) file.now) run) }
{
    let files = [
        TextFile {
            name: "list",
            bytes: list,
        },
        TextFile {
            name: "file",
            bytes: file,
        },
    ];
    run(
        alloc,
        &["match", "--field", "2", "--separator", ",", "list", "file"],
        &files,
    )
}

/// What `netset merge` prints of a list, and what it prints of that again: the same. `None` where a run ends with another
/// status than 0, or there was no memory for what it writes.
pub fn merge_twice(alloc: Global, list: &[u8]) -> Option<(Vec<u8>, Vec<u8>)>
    ensures { IfSome result (λ both. both.1.items ≡ both.0.items) }
{
    merging_again_changes_nothing();
    let first = merge(alloc, list)?;
    let second = merge(alloc, first.out.as_slice())?;
    if first.status != 0 || second.status != 0 {
        return None;
    }
    Some((first.out, second.out))
}
