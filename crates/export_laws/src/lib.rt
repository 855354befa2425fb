//! What comes of the script of an export: a fresh site that is asked it has the contents that were exported. The program calls
//! none of it: the functions here are empty, and their contracts are laws, each with a wrong step that breaks it, and worked rows.
//! `docs/EXPORT.md` says what a script is.
#![tactic(auto)]

ghost use Rattle.plain_site.specs.Step.{step};
ghost use Rattle.plain_site.specs.WrongSteps.{IsBrokenBy, forgets_collected};
ghost use Rattle.export_laws.specs.Laws.{ScriptsAreCarriedOut, ContentsComeBack, ExportsComeBack, ScriptedStateIsKept, StatesAreNumbered};
ghost use Rattle.export_laws.specs.Laws.{ShortExportsAreScripted, FewStatesAreKept, FramesAskTheScript};
ghost use Rattle.export_laws.specs.Rows.{OneEntry, NoEntries, TwoGroups, takes_one_write, commits_nothing, collects_all, collects_nothing};

use wire_talk::talk_has_one_spelling;

/// An export comes back from its script. The site that opens, alone and under the program's limits, refuses no request of the
/// script, and the state that arrived last then has the contents that were exported, so that its own export is the same bytes.
/// That state is kept, and named by the number of groups: 1.1, 1.2 and so on, or the root where there are no entries. Never are
/// more than two states kept, however many entries there are. This holds of exports of up to 274,877,906,880 keys, which are 64
/// for each state that a site can make; an export of fewer than 1,099,511,627,776 bytes, as many as a run reads, has fewer.
pub fn exports_come_back()
    ensures carried_out { ScriptsAreCarriedOut step }
    ensures contents { ContentsComeBack step }
    ensures exports { ExportsComeBack step }
    ensures short { ShortExportsAreScripted }
    ensures kept { ScriptedStateIsKept step }
    ensures few_kept { FewStatesAreKept step }
    ensures numbered { StatesAreNumbered step }
    ensures one_write_breaks { IsBrokenBy ScriptsAreCarriedOut takes_one_write }
    ensures forgotten_breaks { IsBrokenBy ContentsComeBack forgets_collected }
    ensures forgotten_breaks_exports { IsBrokenBy ExportsComeBack forgets_collected }
    ensures all_collected_breaks { IsBrokenBy ScriptedStateIsKept collects_all }
    ensures nothing_collected_breaks { IsBrokenBy FewStatesAreKept collects_nothing }
    ensures nothing_breaks { IsBrokenBy StatesAreNumbered commits_nothing }
{}

/// The frames of a script are cut into its requests, with nothing behind. A site that is sent them comes to the state that the
/// laws speak of, and answers each with the spelling of the reply to its request; so does each run over them, unless one of its
/// replies says that memory is wanting.
pub fn script_frames_ask_the_script()
    ensures { FramesAskTheScript }
{
    talk_has_one_spelling();
}

/// Scripts and their replies, out of the definitions.
pub fn scripts_are_answered_as_told()
    ensures one_entry { OneEntry }
    ensures none { NoEntries }
    ensures two_groups { TwoGroups }
{}
