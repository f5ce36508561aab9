//! Laws of answers: what each says beside the clauses of `run`.

ghost use Rattle.std.specs.Prelude.{◌≡◌, ◌↔◌, ◌⊎◌, ◌∷◌, [], ℕ, List, Some, None, Ok, Err};
ghost use Rattle.dsa_terms.specs.Buffers.{Instance};
ghost use Rattle.dsa_terms.specs.Layouts.{IsLayout};
ghost use Rattle.dsa_terms.specs.Logs.{Log, IsAccepted};
ghost use Rattle.csv_instance.specs.Records.{Record};
ghost use Rattle.csv_instance.specs.declared.fault.InstanceFault.{InstanceFault};
ghost use Rattle.dsa_outside.specs.Seen.{FilesSeen, SinkSeen};
ghost use Rattle.dsa_model.specs.Counts.{Rose};
ghost use Rattle.dsa_model.specs.LayoutFaults.{layout_fault};
ghost use Rattle.log_text.specs.Text.{raw_log_of};
ghost use Rattle.log_text.specs.declared.raw.RawLog.{RawLog};
ghost use Rattle.log_check.specs.Faults.{check_fault};
ghost use Rattle.log_check.specs.declared.fault.CheckFault.{CheckFault};
ghost use Rattle.command_words.specs.Options.{Word};
ghost use Rattle.command_words.specs.Forms.{ReadsInstance, reads_of};
ghost use Rattle.command_words.specs.Requests.{Request, request_of};
ghost use Rattle.command_words.specs.declared.fault.UsageFault.{UsageFault};
ghost use Rattle.command_words.specs.declared.role.Role.{Role};
ghost use Rattle.command_words.specs.Pairs.{name_in};
ghost use Rattle.command_words.specs.declared.role.Role.TheVariants as role;
ghost use Rattle.run_status.specs.Spoken.{IsSpoken};
ghost use Rattle.run_status.specs.declared.status.LogCause.{LogCause};
ghost use Rattle.run_status.specs.declared.status.WrongCause.{WrongCause};
ghost use Rattle.run_status.specs.declared.status.Status.{Status};
ghost use Rattle.run_status.specs.declared.status.Status.TheVariants as status;
ghost use Rattle.run_course.specs.Answers.{Answers};
ghost use Rattle.run_course.specs.Readings.{HoldsMore};
ghost use Rattle.readings.specs.GivenLayouts.{GivesNoOffsets, GivesWrongOffsets};
ghost use Rattle.readings.specs.GivenLogs.{HoldsNoRefutation, HoldsNoText};
ghost use Rattle.readings.specs.Opens.{IsInput};
ghost use Rattle.dsaplan_core.specs.Courses.{course};
ghost use Rattle.dsaplan_core.specs.Complete.{
  HoldsGivenLayout,
  HoldsInstance,
  HoldsLog,
  HoldsNoInstance,
  IsAcceptance,
  IsApproval,
  IsMalformedFor,
  IsReady,
  IsRefusedFor,
  IsTooLongFor,
  IsUndisturbed,
  IsWrongFor,
};
ghost use Rattle.dsaplan_core.specs.Conclusions.{IsConclusion};
ghost use Rattle.dsaplan_core.specs.Causes.{IsCaused, IsChecking, IsJudgedAt};
ghost use Rattle.dsaplan_core.specs.Derived.{Derived};
ghost use Rattle.dsaplan_core.specs.Judged.{Judged};
ghost use Rattle.dsaplan_core.specs.Lost.{HasLongFile, LosesFile, MissesFile};
ghost use Rattle.dsaplan_core.specs.Refused.{IsMisuse};
ghost use Rattle.dsaplan_core.specs.Shown.{Shows};

/// 'right' and 'accepted' say of the layout and of the log that were read what 'feasible' and
/// 'infeasible' say of those that are written, and so do 'drawn', at the greatest capacity,
/// 'trimmed' and 'upgraded'. These write a picture of that layout, the lines of that log that its
/// end needs, and that log in the second version of its text.
pub fn judged()
    ensures { (words : List Word) (old new : FilesSeen) (before after : SinkSeen) (s : Status) →
        Answers (course words) old new before after s → Judged words old new s }
{}

/// 'classes' writes a plan by size class, 'core' an irreducible set of buffers that do not fit,
/// 'imported' the instance of the trace, and 'unrolled' that of one period. 'not plain', 'no core',
/// 'trace' and 'cycle' come only where they are true.
pub fn derived()
    ensures { (words : List Word) (old new : FilesSeen) (before after : SinkSeen) (s : Status) →
        Answers (course words) old new before after s → Derived words old new s }
{}

/// Unless printing fails or memory runs out, what is printed is the line of the status, whole, or a
/// report: what its command prints of the input's instance, or what is true of its layout or of the
/// made instance. With a report the files are as before.
pub fn shown()
    ensures { (words : List Word) (old new : FilesSeen) (before after : SinkSeen) (s : Status) →
        IsSpoken s → Answers (course words) old new before after s →
        Shows words old new before after s }
{}

/// Where a command that checks a log's file reads bytes that say a log accepted for the input's
/// instance, its files are within their limits, and nothing outside fails, the log is accepted,
/// unless memory runs out: `refute` tells its capacity, `trim` how many lines it has and how many
/// its end needs, and `upgrade` how many it has.
pub fn checks()
    ensures { (words : List Word) (old new : FilesSeen) (before after : SinkSeen)
        (request : Request) (I : Instance) (log : Log) (s : Status) →
        request_of words ≡ Ok request → IsChecking request.verb → IsReady old request I →
        IsUndisturbed request old new before after →
        HoldsLog I log old (name_in request.pairs role.Log) →
        Answers (course words) old new before after s → IsAcceptance request.verb log s }
{}

/// Where a command that judges a layout file at a capacity reads one whose offsets are a layout at
/// that capacity, its files are within their limits, and nothing outside fails, the answer is
/// right, shown, or drawn with the number of the layout's rectangles, unless memory runs out.
pub fn judges()
    ensures { (words : List Word) (old new : FilesSeen) (before after : SinkSeen)
        (request : Request) (I : Instance) (C : ℕ) (offsets : List ℕ) (s : Status) →
        request_of words ≡ Ok request → IsJudgedAt request.verb request.pairs C →
        IsReady old request I → IsUndisturbed request old new before after →
        HoldsGivenLayout old request I C offsets →
        Answers (course words) old new before after s → IsApproval request.verb I offsets s }
{}

/// Where a command takes its input as an instance, it is none, though within its limit, and nothing
/// outside fails, the answer is malformed for its first fault, unless memory runs out.
pub fn malformed()
    ensures { (words : List Word) (old new : FilesSeen) (before after : SinkSeen)
        (request : Request) (fault : InstanceFault) (s : Status) →
        request_of words ≡ Ok request → ReadsInstance request.verb →
        IsUndisturbed request old new before after →
        HoldsNoInstance fault old (name_in request.pairs role.Input) →
        Answers (course words) old new before after s → IsMalformedFor fault s }
{}

/// Where a command that checks a log's file reads bytes that say no log, or one that is not
/// accepted for the input's instance, its files are within their limits, and nothing outside
/// fails, the log is refused for its first fault, unless memory runs out.
pub fn log_refused()
    ensures { (words : List Word) (old new : FilesSeen) (before after : SinkSeen)
        (request : Request) (I : Instance) (cause : LogCause) (s : Status) →
        request_of words ≡ Ok request → IsChecking request.verb → IsReady old request I →
        IsUndisturbed request old new before after →
        HoldsNoText old (name_in request.pairs role.Log) (status.LogRefused cause)
        ⊎ HoldsNoRefutation old (name_in request.pairs role.Log) I (status.LogRefused cause) →
        Answers (course words) old new before after s → IsRefusedFor cause s }
{}

/// Where a command that judges a layout file at a capacity reads one that gives no offsets, or
/// offsets that are no layout at that capacity, its files are within their limits, and nothing
/// outside fails, the layout file is wrong for its first fault, unless memory runs out.
pub fn wrong()
    ensures { (words : List Word) (old new : FilesSeen) (before after : SinkSeen)
        (request : Request) (table : List Record) (I : Instance) (C : ℕ) (cause : WrongCause)
        (s : Status) →
        request_of words ≡ Ok request → IsJudgedAt request.verb request.pairs C →
        IsReady old request I → IsUndisturbed request old new before after →
        IsInput old (name_in request.pairs role.Input) table I →
        GivesNoOffsets old (name_in request.pairs role.Layout) table (status.Wrong cause)
        ⊎ GivesWrongOffsets old (name_in request.pairs role.Layout) table I C
        (status.Wrong cause) →
        Answers (course words) old new before after s → IsWrongFor cause s }
{}

/// Where the first file that a command reads holds more bytes than it may, and nothing outside
/// fails, the answer is that this file is too long, unless memory runs out; the same of the second
/// file, where the input holds an instance.
pub fn too_long()
    ensures first { (words : List Word) (old new : FilesSeen) (before after : SinkSeen)
        (request : Request) (file : Role) (rest : List Role) (s : Status) →
        request_of words ≡ Ok request → reads_of request.verb ≡ file ∷ rest →
        IsUndisturbed request old new before after →
        HoldsMore old file (name_in request.pairs file) →
        Answers (course words) old new before after s → IsTooLongFor file s }
    ensures second { (words : List Word) (old new : FilesSeen) (before after : SinkSeen)
        (request : Request) (I : Instance) (file : Role) (s : Status) →
        request_of words ≡ Ok request → reads_of request.verb ≡ role.Input ∷ file ∷ [] →
        IsUndisturbed request old new before after →
        HoldsInstance I old (name_in request.pairs role.Input) →
        HoldsMore old file (name_in request.pairs file) →
        Answers (course words) old new before after s → IsTooLongFor file s }
{}

/// Where a command's files are readable, its input is an instance, and nothing outside fails, the
/// status is one of those that conclude the command: a layout where there is one, a refutation
/// where there is none, a verdict, a report or what is derived; 'open' never comes without steps.
pub fn conclusions()
    ensures { (words : List Word) (old new : FilesSeen) (before after : SinkSeen)
        (request : Request) (I : Instance) (s : Status) → request_of words ≡ Ok request →
        IsReady old request I → IsUndisturbed request old new before after →
        Answers (course words) old new before after s →
        IsConclusion request.verb request.pairs I s }
{}

/// Words that are no command are answered by their first fault, unless printing fails or memory
/// runs out.
pub fn refused()
    ensures { (words : List Word) (old new : FilesSeen) (before after : SinkSeen)
        (fault : UsageFault) (s : Status) → request_of words ≡ Err fault →
        Answers (course words) old new before after s → IsMisuse fault s }
{}

/// Printing is blamed only where the sink's count of faults rose.
pub fn print_fault()
    ensures { (words : List Word) (old new : FilesSeen) (before after : SinkSeen) →
        Answers (course words) old new before after status.PrintFault →
        Rose before.faults after.faults }
{}

/// Reading is blamed only for a file that the command reads, which could not be read, or holds more
/// bytes than it may.
pub fn missed()
    ensures unread { (words : List Word) (old new : FilesSeen) (before after : SinkSeen)
        (role : Role) → Answers (course words) old new before after (status.ReadFault role) →
        MissesFile words old new role }
    ensures long { (words : List Word) (old new : FilesSeen) (before after : SinkSeen)
        (role : Role) → Answers (course words) old new before after (status.TooLong role) →
        HasLongFile words old new role }
{}

/// What is refused is refused for its first fault, and nothing is written: words only where they
/// are no command; too many buffers only by a trial; an input only where it was read whole and is
/// no instance; a layout file only where it gives no layout at the command's capacity; a log's file
/// only where it says no accepted log.
pub fn causes()
    ensures { (words : List Word) (old new : FilesSeen) (before after : SinkSeen) (s : Status) →
        Answers (course words) old new before after s → IsCaused words old new s }
{}

/// A log whose text has a first fault for an instance is not accepted for it.
pub fn check_faults_are_exact()
    ensures { (I : Instance) (raw : RawLog) (fault : CheckFault) (log : Log) →
        check_fault I raw ≡ Some fault → raw_log_of log ≡ raw → IsAccepted I log → ⊥ }
{}

/// Offsets have no first fault exactly where they are a layout at the capacity.
pub fn layout_faults_are_exact()
    ensures { (I : Instance) (C : ℕ) (offsets : List ℕ) →
        (layout_fault I C offsets ≡ None) ↔ IsLayout I C offsets }
{}

/// A write is blamed only where the command came to it, and the count of faults of its own name
/// rose; the writes before it are made.
pub fn lost()
    ensures { (words : List Word) (old new : FilesSeen) (before after : SinkSeen) (role : Role) →
        Answers (course words) old new before after (status.WriteFault role) →
        LosesFile words old new role }
{}
