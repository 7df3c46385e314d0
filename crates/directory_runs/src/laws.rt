//! What holds of every run. The functions do nothing: their contracts are the laws.
ghost use Rattle.std.specs.Prelude.{◌≡◌, ◌≢◌, ◌↔◌, ◌<◌, ◌≤◌, ◌^◌, ◌∷◌, ◌++◌, ℕ, true, false, List, None, Option, Contains, length};
ghost use Rattle.std.specs.FinMap as fin;
ghost use Rattle.attr_list.specs.Lists.{Attributes};
ghost use Rattle.access_rules.specs.Deciding.{SiteRules, deciding, deed};
ghost use Rattle.access_rules.specs.declared.rule.Action.{Action};
ghost use Rattle.access_rules.specs.declared.rule.Action.TheVariants.{See};
ghost use Rattle.registry_core.specs.declared.entry.Entry.{Entry as AnyEntry};
ghost use Rattle.slp_messages.specs.declared.message.Message.{Message};
ghost use Rattle.directory_judge.specs.History.{Event, History, clock};
ghost use Rattle.directory_judge.specs.Meaning.{Live, Stands, rules};
ghost use Rattle.directory_judge.specs.Sites.{IsSite};
ghost use Rattle.directory_questions.specs.Answers.{is_change_of, IsAnswer, IsOpenTo};
ghost use Rattle.directory_questions.specs.Bytes.{AreBytes};
ghost use Rattle.directory_questions.specs.Calls.{Opening, Call, Standpoint};
ghost use Rattle.directory_questions.specs.Items.{AreAttributesOf, IsDescribed, IsOpenNow};
ghost use Rattle.directory_questions.specs.Sights.{seen_entry};
ghost use Rattle.directory_questions.specs.declared.query.AttrQuery.{AttrQuery};
ghost use Rattle.directory_questions.specs.Outcomes.{Outcome};
ghost use Rattle.directory_questions.specs.Verdicts.{IsLegal};
ghost use Rattle.history_log.specs.Pasts.{IsPast};
ghost use Rattle.directory_runs.specs.Allowing.{IsAllowed};
ghost use Rattle.directory_runs.specs.Hiding.{without_tag, IsKeptBack};
ghost use Rattle.directory_runs.specs.Owners.{action_of_act, changes, IsForOwners, IsWithoutOwners};
ghost use Rattle.directory_runs.specs.Promises.{IsKeptThroughout};
ghost use Rattle.directory_runs.specs.Changes.{IsChanged};
ghost use Rattle.directory_runs.specs.Runs.{Entry, Learn, May, Publish, Reply, Run, IsRun, World, happened, world};
ghost use Rattle.directory_runs.specs.Turns.{AreDone, AreTurns, Deed, IsRunOf, Turn, last_turn};
ghost use Rattle.slp_answer.specs.Answers.{Replies};
ghost use Rattle.slp_replies.specs.Tellings.{Tells};
ghost use Rattle.slp_replies.specs.declared.answer.Sent.{Sent};
ghost use Rattle.slp_headers.specs.Headers.{heading_of};

/// What users are promised, over every interleaving of changes, sweeps, reloads and questions. A loop answers at one
/// published state, which begins with all that the loop had seen and was told; a reply of code 0 without the flag holds
/// exactly the live entries that match and that scopes and rules open to its asker there. A change is published exactly
/// where template, scope and rules allow it. Every denial carries its code, and its line names its rule. What is answered
/// for want of memory is no part of it (`Look` and `Refusal` publish nothing); moments and addresses are those that calls
/// are made with.
pub fn what_users_are_promised()
    ensures { (o : Opening) (run : Run) → IsRun o run → IsKeptThroughout o run }
{}

/// What is published is a legal history.
pub fn what_is_published_is_legal()
    ensures { (o : Opening) (run : Run) → IsRun o run → IsLegal o (world run).published }
{}

/// What a loop has seen, what a note tells and where a reply was given are pasts of what is published.
pub fn all_is_of_one_history()
    ensures seen { (o : Opening) (run : Run) (i : ℕ) → IsRun o run → IsPast ((world run).seen i) (world run).published }
    ensures notes { (o : Opening) (run : Run) (n : History) → IsRun o run → Contains (world run).notes n
        → IsPast n (world run).published }
    ensures replies { (o : Opening) (run : Run) (r : Reply) → IsRun o run → Contains (world run).replies r
        → IsPast r.at (world run).published }
{}

/// What is published and what a loop has seen only get longer.
pub fn nothing_is_forgotten()
    ensures published { (o : Opening) (later run : Run) → IsRun o (later ++ run)
        → IsPast (world run).published (world (later ++ run)).published }
    ensures seen { (o : Opening) (later run : Run) (i : ℕ) → IsRun o (later ++ run)
        → IsPast ((world run).seen i) ((world (later ++ run)).seen i) }
{}

/// A reply is given at a history that goes on from those of the replies before it, of whatever loops.
pub fn replies_go_on()
    ensures { (o : Opening) (run : Run) (newer older : List Reply) (r s : Reply) → IsRun o run
        → (world run).replies ≡ newer ++ r ∷ older → Contains older s → IsPast s.at r.at }
{}

/// What a loop has seen and learnt, its later replies go on from. (`fresh` are the replies since.)
pub fn replies_know_what_their_loop_saw()
    ensures seen { (o : Opening) (later run : Run) → IsRun o (later ++ run) → (fresh : List Reply)
        × ((world (later ++ run)).replies ≡ fresh ++ (world run).replies)
        × ((r : Reply) → Contains fresh r → IsPast ((world run).seen r.loop) r.at) }
    ensures learnt { (o : Opening) (later run : Run) (i : ℕ) (n : History) → IsRun o (later ++ Learn i n ∷ run)
        → (fresh : List Reply) × ((world (later ++ Learn i n ∷ run)).replies ≡ fresh ++ (world run).replies)
        × ((r : Reply) → Contains fresh r → r.loop ≡ i → IsPast n r.at) }
{}

/// Two replies of a run, of whatever loops, to the same call are the same where the clocks of their histories are, and the
/// entries open to the asker.
pub fn replies_differ_by_what_is_open()
    ensures { (o : Opening) (run : Run) (r s : Reply) → IsRun o run → Contains (world run).replies r
        → Contains (world run).replies s → r.call ≡ s.call → clock r.at ≡ clock s.at
        → ((e : AnyEntry) → IsOpenTo o r.at r.call e ↔ IsOpenTo o s.at r.call e) → r.outcome ≡ s.outcome }
{}

/// A reply has at most as many bytes as its call leaves room for: a list of items is cut, and an advert, an acknowledgement
/// or a code alone is no longer than a datagram. So it is of each reply of a run, since what comes of bytes there is one of
/// these outcomes.
pub fn replies_fit()
    ensures { (o : Opening) (h : History) (c : Call) (r : Outcome) (change : Option Event)
        → IsSite o.site.scopes o.site.capacity → c.own < 2 ^ 32 → 1400 ≤ c.limit
        → IsAnswer o h c r change → length r.reply ≤ c.limit }
{}

/// Whatever stands in a legal history has a scope, so that a rule decides who may change and see it.
pub fn what_stands_has_a_scope()
    ensures { (o : Opening) (h : History) (e : AnyEntry) → IsLegal o h → Stands h e → 0 < length e.scopes }
{}

/// Where each rule about registering is about owners alone, what another registered is never replaced or updated; where each
/// rule about withdrawing is, it is never withdrawn, nor a tag of it.
pub fn what_another_registered_is_not_changed()
    ensures { (from : Standpoint) (sent : Message) (event : Event) (e : AnyEntry) → IsLegal from.opening from.history
        → IsAllowed from sent event → Live from.history from.moment e
        → changes event.act e ≡ true → IsForOwners from (action_of_act event.act) → from.asker ≡ e.owner }
{}

/// Where each rule about seeing is about owners alone, what another registered is never seen.
pub fn what_another_registered_is_not_seen()
    ensures { (from : Standpoint) (asked : List (List ℕ)) (e : AnyEntry) → IsForOwners from See → IsOpenNow from asked e
        → from.asker ≡ e.owner }
{}

/// A tag that a hide table hides from every address, of every type and in every scope, is in no entry that is seen and that
/// another registered, so it is in no reply about what others registered, and decides no filter of theirs: such an entry is
/// seen as it would be without the tag. The table may spare owners.
pub fn what_is_kept_from_others_is_not_seen()
    ensures seen { (from : Standpoint) (asked : List (List ℕ)) (e : AnyEntry) (tag : List ℕ)
        → IsKeptBack (rules from.opening.rules from.history) tag → IsOpenNow from asked e → from.asker ≢ e.owner
        → fin.get e.attrs tag ≡ None }
    ensures told { (from : Standpoint) (q : AttrQuery) (a : Attributes) (tag : List ℕ)
        → IsKeptBack (rules from.opening.rules from.history) tag
        → ((e : AnyEntry) → IsDescribed (IsOpenNow from q.scopes) q e → from.asker ≢ e.owner) → AreAttributesOf from q a
        → fin.get a tag ≡ None }
    ensures alike { (rs : SiteRules) (tag : List ℕ) → IsKeptBack rs tag → (asker : ℕ) (e : AnyEntry) → asker ≢ e.owner
        → (scopes : List (List ℕ))
        → seen_entry rs asker scopes (without_tag tag e) ≡ seen_entry rs asker scopes e }
{}

/// With rule files of version 1 it makes no difference who registered: whatever is asked of the rules, they decide the same.
pub fn the_first_version_asks_for_no_registrant()
    ensures { (o : Opening) (h : History) (asker : ℕ) (action : Action) (kind : List ℕ) (one other : ℕ) (scope : List ℕ)
        → IsWithoutOwners o h
        → deciding (rules o.rules h) (deed asker action kind one) scope
        ≡ deciding (rules o.rules h) (deed asker action kind other) scope }
{}

/// What a loop tells of bytes that ask for no change, at a history, may happen in every world that has this history
/// published.
pub fn what_is_replied_may_happen()
    ensures { (o : Opening) (w : World) (loop : ℕ) (h : History) (c : Call) (what : Sent) (reply line : List ℕ)
        → AreBytes c.bytes → is_change_of c.bytes ≡ false → w.published ≡ h
        → Replies o h c what reply line → (r : Outcome) × May o w (Entry loop c r)
        × Tells (rules o.rules h) c.asker (heading_of c.bytes) r what reply line }
{}

/// What a writer answers to bytes that ask for a change may happen there, too, and publishes the history that it leaves.
pub fn what_is_changed_may_happen()
    ensures { (o : Opening) (w : World) (h : History) (c : Call) (what : Sent) (reply line : List ℕ) (after : History)
        → AreBytes c.bytes → is_change_of c.bytes ≡ true → w.published ≡ h
        → IsChanged o h c.moment c.asker c.bytes what reply line after
        → (r : Outcome) × (change : Option Event) × May o w (Publish c r change)
        × ((happened w (Publish c r change)).published ≡ after)
        × Tells (rules o.rules h) c.asker (heading_of c.bytes) r what reply line }
{}

/// What loops told and what a writer did is one run, and keeps what users are promised: the calls of each loop in their
/// order, at histories that go on from one another, and the calls of the writer in theirs, each at the history that the one
/// before left. All that loops saw are pasts of what is published at the end.
pub fn what_was_told_is_a_run()
    ensures { (o : Opening) (deeds : List Deed) (h : History) (number : ℕ) (loops : ℕ → List Turn) → AreDone o deeds h
        → ((i : ℕ) → i < number → AreTurns o (loops i) × IsPast (last_turn (loops i)) h) → (run : Run)
        × IsRunOf o deeds number loops h run }
{}

/// At each legal history there is what is to be told of each call that leaves room for a datagram, so that a run can go on
/// with it.
pub fn something_is_told()
    ensures { (o : Opening) (h : History) (c : Call) → IsLegal o h → 1400 ≤ c.limit → (r : Outcome)
        × (change : Option Event) × IsAnswer o h c r change }
{}
