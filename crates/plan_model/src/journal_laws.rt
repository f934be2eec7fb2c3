//! Laws of journals: each function does nothing, and its contract is the law.
ghost use Rattle.plan_model.specs.JournalLaws.{BeginningIsLegal, BeginningIsJournal, EachIsNext};
ghost use Rattle.plan_model.specs.JournalLaws.{NextIsLegal, LongerIssuesNoFewer, TablesAreSound};
ghost use Rattle.plan_model.specs.JournalLaws.{LongerAgrees, OthersKeepTables, CurrentStays};
ghost use Rattle.plan_model.specs.JournalLaws.{CurrentIsAnswered, StampTellsRow, NoneIsLeft};
ghost use Rattle.plan_model.specs.JournalLaws.{CallsEndInOneWay, CallsLeaveJournals};
ghost use Rattle.plan_model.specs.JournalLaws.{ReadingMayBePublished, DoneStays};
ghost use Rattle.plan_model.specs.JournalLaws.{UntouchedIsNoneTouches, PublicationsRise, SessionAloneIsOne};

/// Each beginning of a legal journal, with an entry at least, is legal.
pub fn beginning_is_legal()
    ensures { BeginningIsLegal }
{}

/// Where planners keep to their scripts in a journal, they do in each beginning of it.
pub fn beginning_is_journal()
    ensures { BeginningIsJournal }
{}

/// Each entry of a legal journal but the first is a legal next one after those before it.
pub fn each_is_next()
    ensures { EachIsNext }
{}

/// A legal journal with a legal next entry is legal.
pub fn next_is_legal()
    ensures { NextIsLegal }
{}

/// A longer journal has issued no fewer passes.
pub fn longer_issues_no_fewer()
    ensures { LongerIssuesNoFewer }
{}

/// The tables of a legal journal are sound, after each edit.
pub fn tables_are_sound()
    ensures { TablesAreSound }
{}

/// A longer journal has the same tables and cuts up to the last edit of the shorter.
pub fn longer_agrees()
    ensures { LongerAgrees }
{}

/// Entries that make no edit leave the tables, the number of the last edit and all cuts.
pub fn others_keep_tables()
    ensures { OthersKeepTables }
{}

/// A section is untouched since an edit just where no later edit touches it: where its cuts before
/// and after each later edit do not differ.
pub fn untouched_is_none_touches()
    ensures { UntouchedIsNoneTouches }
{}

/// Of two publications of one section in a legal journal, the later speaks of a later edit.
pub fn publications_rise()
    ensures { PublicationsRise }
{}

/// A section that is current stays current by entries of which none makes an edit that touches it.
pub fn current_stays()
    ensures { CurrentStays }
{}

/// The last published answer of a current section is that of its cut as it is now.
pub fn current_is_answered()
    ensures { CurrentIsAnswered }
{}

/// In two readings of a section, of a journal and of a longer one, rows of equal name and stamp are
/// equal.
pub fn stamp_tells_row()
    ensures { StampTellsRow }
{}

/// Where no task is left, each planner has done its script.
pub fn none_is_left()
    ensures { NoneIsLeft }
{}

/// An edit, a question of a section, a step, a reading and a publication each end in one way, by the
/// journal that the call finds: a refusal comes where it may come, and nowhere else.
pub fn calls_end_in_one_way()
    ensures { CallsEndInOneWay }
{}

/// After each call on a journal in which planners keep to their scripts it is such a journal again.
pub fn calls_leave_journals()
    ensures { CallsLeaveJournals }
{}

/// The answer that is worked out from the next reading of a journal is one that may be published.
pub fn reading_may_be_published()
    ensures { ReadingMayBePublished }
{}

/// An answer that may be published of a journal is that of its section also in a longer one.
pub fn done_stays()
    ensures { DoneStays }
{}

/// The journal of a session without workers is one: the tables, the number of the last edit before
/// it and the scripts determine each of its entries.
pub fn session_alone_is_one()
    ensures { SessionAloneIsOne }
{}
