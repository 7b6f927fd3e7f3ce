//! What holds of every row, whatever the state.

ghost use Rattle.std.specs.Prelude.{◌≡◌, ◌≤◌, ◌+◌, ◌++◌, Some, None};
ghost use Rattle.sk_types.specs.declared.number.Handle.{Handle};
ghost use Rattle.message.specs.declared.request.Message.{Message};
ghost use Rattle.message.specs.declared.request.Request.TheVariants.{Put};
ghost use Rattle.message.specs.declared.request.Answer.{Answer};
ghost use Rattle.message.specs.declared.request.Answer.TheVariants.{Found};
ghost use Rattle.sk_types.specs.declared.number.Session.{Session};
ghost use Rattle.session_table.specs.Table.{drawn, after_draw, sleeping};
ghost use Rattle.session_table.specs.declared.words.ThreadNo.{ThreadNo};
ghost use Rattle.session_table.specs.declared.words.Token.{Token};
ghost use Rattle.service_library.specs.declared.words.Reason.TheVariants as reason;
ghost use Rattle.service_library.specs.State.{Lib};
ghost use Rattle.service_library.specs.Rows.{called, stopped, asleep};
ghost use Rattle.service_library.specs.Order.{FirstGoesOn, GoesOn, suspends, MessageGoesOn};
ghost use Rattle.service_library.specs.Laws.{ready, IsOfThread, held_in, HaveSessions, KeepsHeld, request_of, letter, IsOrderly, IsDone, FitsDoing};
ghost use Rattle.service_library.specs.declared.words.LibCall.{LibCall};
ghost use Rattle.service_library.specs.declared.words.LibCall.TheVariants as call;
ghost use Rattle.service_library.specs.declared.words.LibStep.TheVariants.{Ask};
ghost use Rattle.service_library.specs.declared.words.ThreadStop.{ThreadStop};

/// A call of a thread readies at most one thread more.
pub fn law_ready_threads()
    ensures { (l : Lib) (c : LibCall) → IsOfThread c → ready (called l c).1 ≤ ready l + 1 }
{}

/// Which thread goes on. Once the running one has stopped or waits it is the first wakeup, else the first failed call,
/// else the first fork.
pub fn law_first_thread()
    ensures stops { (l : Lib) (s : ThreadStop) → FirstGoesOn l (stopped l s) }
    ensures answers { (l : Lib) (a : Answer) → GoesOn l l.doing (suspends l l.doing a) (called l (call.Answer a)) }
    ensures waits { (l : Lib) (token : Token) (s : Session) → drawn l.table ≡ Some s → sleeping l.table token ≡ None → FirstGoesOn (asleep (record l { table = after_draw l.table }) s token reason.Wait) (called l (call.Wait token)) }
    ensures messages { (l : Lib) (m : Message) (t : ThreadNo) → MessageGoesOn l m t (called l (call.Message m t)) }
{}

/// A request that is taken is held, and it leaves the held ones only as the reply whose caller is looked up next.
pub fn law_held_requests()
    ensures messages { (l : Lib) (m : Message) (t : ThreadNo) → KeepsHeld (held_in l ++ request_of m) (called l (call.Message m t)) }
    ensures calls { (l : Lib) (c : LibCall) → IsOfThread c → HaveSessions (held_in l) → KeepsHeld (held_in l) (called l c) }
    ensures answers { (l : Lib) (a : Answer) → held_in (called l (call.Answer a)).1 ≡ held_in l }
    ensures stops { (l : Lib) (s : ThreadStop) → HaveSessions (held_in l) → KeepsHeld (held_in l) (stopped l s) }
{}

/// Each held request wants an answer.
pub fn law_held_sessions()
    ensures calls { (l : Lib) (c : LibCall) → HaveSessions (held_in l) → HaveSessions (held_in (called l c).1) }
    ensures stops { (l : Lib) (s : ThreadStop) → HaveSessions (held_in l) → HaveSessions (held_in (stopped l s).1) }
{}

/// No thread runs between a Look and the Put that it is for, nor between a Retire and its Mark.
pub fn law_requests_stand_together()
    ensures puts { (l : Lib) (h to : Handle) (m : Message) → letter l l.doing h ≡ Some (to, m) → (called l (call.Answer (Found (Some h)))).0 ≡ Ask (Put to m) }
    ensures calls { (l : Lib) (c : LibCall) → IsOrderly (called l c) }
    ensures stops { (l : Lib) (s : ThreadStop) → IsOrderly (stopped l s) }
{}

/// A service that is idle has no thread that is ready, or it has ended. A message comes where none was ready.
pub fn law_idle()
    ensures messages { (l : Lib) (m : Message) (t : ThreadNo) → ready l ≡ 0 → IsDone (called l (call.Message m t)) }
    ensures answers { (l : Lib) (a : Answer) → FitsDoing l.doing a → IsDone (called l (call.Answer a)) }
    ensures calls { (l : Lib) (c : LibCall) → IsOfThread c → IsDone (called l c) }
    ensures stops { (l : Lib) (s : ThreadStop) → IsDone (stopped l s) }
{}
