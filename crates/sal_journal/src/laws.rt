//! What holds of all journals.

ghost use Rattle.std.specs.Prelude.{◌≡◌, ℕ, List, map, Ok};
ghost use Rattle.std.specs.List.{AllByRecursion};
ghost use Rattle.sal_y4m.specs.declared.head.Head.{Head as HeadData};
ghost use Rattle.sal_world.specs.LineText.{journal_text};
ghost use Rattle.sal_journal.specs.declared.event.JournalEvent.{JournalEvent as EventData};
ghost use Rattle.sal_journal.specs.Events.{line_of, IsEvent, IsJournalHead};
ghost use Rattle.sal_journal.specs.Reading.{Told, journal_of, IsJournal};

/// A journal is read again from its text.
pub fn is_read_again()
    ensures { (head : HeadData) (events : List EventData) → IsJournalHead head → AllByRecursion IsEvent events → journal_of (journal_text head (map line_of events)) ≡ Ok (record { head = head; events = events }) }
{}

/// What is read is what is written of it.
pub fn is_what_is_written()
    ensures { (text : List ℕ) (told : Told) → journal_of text ≡ Ok told → IsJournal text told }
{}

/// Two journals that differ have different texts.
pub fn tells_apart()
    ensures { (head other_head : HeadData) (events others : List EventData) → IsJournalHead head → IsJournalHead other_head → AllByRecursion IsEvent events → AllByRecursion IsEvent others → journal_text head (map line_of events) ≡ journal_text other_head (map line_of others) → (head ≡ other_head) × (events ≡ others) }
{}
