//! The laws: what an answer depends on, and what a request keeps.
ghost use Rattle.std.specs.Prelude.{◌≡◌, ◌≢◌, ℕ, [], ◌∷◌, ◌++◌, true, Bool, List, Contains, None, Ok, filter};
ghost use Rattle.channel_plan.specs.declared.plan.PlanRow.{PlanRow};
ghost use Rattle.playlist_core.specs.Day.{Day};
ghost use Rattle.playlist_core.specs.Source.{SourcesSeen};
ghost use Rattle.vault_core.specs.Questions.{IsConsistent};
ghost use Rattle.channel_view_model.specs.Tables.{picked};
ghost use Rattle.channel_view_model.specs.Centre.{Centre, Request, view_of, reply_to, after, after_all};
ghost use Rattle.channel_view_model.specs.Decide.{day_decision};
ghost use Rattle.channel_view_model.specs.declared.command.Command.{Command};
ghost use Rattle.channel_view_model.specs.declared.day_command.DayCommand.TheVariants as DayCommand;
ghost use Rattle.channel_view_model.specs.declared.revision.SaidItem.{SaidItem};
ghost use Rattle.channel_view_model.specs.Revision.{SaidRevision};
ghost use Rattle.channel_view_model.specs.Revising.{day_revised, day_with, day_without};
ghost use Rattle.channel_view_model.specs.Rules.{KeepsRules};
ghost use Rattle.channel_view_model.specs.Solo.{own_part, events_of, solo_outcomes, feed, replies_to, lends};
ghost use Rattle.channel_view_model.specs.Solo.{purge};
ghost use Rattle.channel_view_laws.specs.Requests.{UnlessUnavailable, rows_after};
ghost use Rattle.channel_view_laws.specs.Runs.{MayRemain};
ghost use Rattle.channel_view_laws.specs.Again.{IsDoneOnce, MayBeFound};
ghost use Rattle.channel_view_laws.specs.Parts.{rows_part, requests_part, IsClosed};
ghost use Rattle.channel_view_laws.specs.Revisions.{TakesBack, day_decided, showing};

/// The questions that are asked of the rows that a test picks agree with one another.
pub fn questions_of_picked_rows_agree<R, A>()
    ensures { (mine : R → Bool) (f : R → A) (rows : List R) → IsConsistent (picked mine f rows) }
{}

/// Two sets that a channel sees alike answer it alike, and it sees them alike afterwards.
pub fn what_is_seen_decides()
    ensures reply { (rows others : Centre) (c : ℕ) (q : Command) → view_of c rows ≡ view_of c others →
        reply_to rows (c, q) ≡ reply_to others (c, q) }
    ensures view { (rows others : Centre) (c : ℕ) (q : Command) → KeepsRules rows → KeepsRules others →
        view_of c rows ≡ view_of c others →
        view_of c (after rows (c, q)) ≡ view_of c (after others (c, q)) }
{}

/// In a run of requests of all channels, what is answered to one is what its own machine answers by itself. It starts
/// from what the channel sees, is given the channel's requests, and hears of the others their offers to it and the
/// withdrawals of these, and of nothing else.
pub fn one_channel_alone()
    ensures { (rows : Centre) → KeepsRules rows → (rs : List Request) (c : ℕ) →
        replies_to c rows rs ≡ solo_outcomes (view_of c rows) (feed c rows rs) }
{}

/// Of two runs, of whatever rows and whatever requests, what a channel sees at first and what comes to it decide what
/// it is answered: where both are equal, so are the answers.
pub fn equal_feeds_are_answered_alike()
    ensures { (rows others : Centre) → KeepsRules rows → KeepsRules others → (rs ss : List Request) (c : ℕ) →
        view_of c rows ≡ view_of c others → feed c rows rs ≡ feed c others ss →
        replies_to c rows rs ≡ replies_to c others ss }
{}

/// Of a run the requests of some channels may be kept alone, it and all that lend to it among them: what is answered to
/// it stays.
pub fn whole_channels_deleted()
    ensures { (rows : Centre) → KeepsRules rows → (rs : List Request) (c : ℕ) (mine : ℕ → Bool) →
        mine c ≡ true → ((b : ℕ) → lends c rows rs b ≡ true → mine b ≡ true) →
        replies_to c rows rs ≡ replies_to c rows (filter (λ r. mine r.0) rs) }
{}

/// The requests of channels that lend it nothing may be deleted from a run: what is answered to it stays.
pub fn others_deleted()
    ensures { (rows : Centre) → KeepsRules rows → (rs : List Request) (c : ℕ) →
        replies_to c rows rs ≡ replies_to c rows (purge c rows rs) }
{}

/// Closed parts of a centre, side by side, answer as one. The rows of such a part keep the rules by themselves. To each
/// of its channels the whole replies as these rows do to the requests of the part's channels alone, and what these
/// requests leave of the rows is what the whole run leaves of them.
pub fn closed_parts_answer_as_one()
    ensures rules { (rows : Centre) → KeepsRules rows → (mine : ℕ → Bool) (rs : List Request) →
        IsClosed mine rows rs → KeepsRules (rows_part mine rows) }
    ensures replies { (rows : Centre) → KeepsRules rows → (mine : ℕ → Bool) (rs : List Request) →
        IsClosed mine rows rs → (c : ℕ) → mine c ≡ true →
        replies_to c rows rs ≡ replies_to c (rows_part mine rows) (requests_part mine rs) }
    ensures rows { (rows : Centre) → KeepsRules rows → (mine : ℕ → Bool) (rs : List Request) →
        IsClosed mine rows rs →
        rows_part mine (after_all rows rs) ≡ after_all (rows_part mine rows) (requests_part mine rs) }
{}

/// A stop leaves the requests in doubt undone, or one of them done whole. A channel sees the same in both, where none
/// of them is its own, and none offers it a clip or withdraws an offer to it.
pub fn others_see_no_stop()
    ensures { (rows left : Centre) (in_doubt : List Request) → KeepsRules rows → MayRemain in_doubt rows left
        → (c : ℕ) →
        ((r : Request) → Contains in_doubt r → (r.0 ≢ c) × (events_of c r.0 (own_part (view_of r.0 rows)) r.1 ≡ [])) →
        view_of c left ≡ view_of c rows }
{}

/// A request that is sent again, right after it was done, changes nothing more. It is answered as before where it
/// changed nothing, and so is a batch. Any other is refused, by the refusal that says of its command that it is done;
/// a revision by one of two, or it is answered as before.
pub fn sent_again_nothing_changes()
    ensures { (rows : Centre) → KeepsRules rows → (r : Request) → IsDoneOnce rows r }
{}

/// A revision of a day is the commands for one item, one after another: the fold of `day_revised` takes out each number
/// and puts in each item as the command for it does. An item that is said to be a wipe has no such command.
pub fn a_revision_is_its_commands()
    ensures takes_out { (plan : PlanRow) (seen : SourcesSeen) (day : Day) (n : ℕ) →
        day_without n day ≡ day_decided day (day_decision plan day seen (DayCommand.RemoveItem n)) }
    ensures puts_in { (plan : PlanRow) (seen : SourcesSeen) (day : Day) (said : SaidItem) → said.wipe ≡ None →
        day_with plan seen said day ≡ day_decided day (day_decision plan day seen
        (DayCommand.AddItem said.at said.frames said.source_in said.mix said.source)) }
{}

/// A revision that takes back another, right after it, gives back what the day showed at each frame, unless it is
/// refused: a clip may have been retired since, or a lent one withdrawn.
pub fn a_revision_is_taken_back()
    ensures { (plan : PlanRow) (seen later : SourcesSeen) (said back : SaidRevision) (day after again : Day) →
        day_revised plan seen said day ≡ Ok after → TakesBack plan said day after back →
        day_revised plan later back after ≡ Ok again → showing again ≡ showing day }
{}

/// A run that was cut short ends as it would have, where it is gone on with from the first request that isn't known to
/// be done: also where this one was done. So it does after a stop, where each request was tried until it was done, and
/// no other is in doubt.
pub fn a_run_is_gone_on_with()
    ensures found { (rows : Centre) → KeepsRules rows → (known rest : List Request) (found : Centre) →
        MayBeFound rows known rest found → after_all found rest ≡ after_all rows (known ++ rest) }
    ensures stopped { (rows : Centre) → KeepsRules rows → (known rest in_doubt : List Request) (next : Request)
        (left : Centre) → MayRemain in_doubt (after_all rows known) left →
        ((r : Request) → Contains in_doubt r → r ≡ next) →
        after_all left (next ∷ rest) ≡ after_all rows (known ++ next ∷ rest) }
{}
