//! What holds of the launcher's table.

ghost use Rattle.std.specs.Prelude.{◌≡◌, true};
ghost use Rattle.message.specs.Messages.{is_request, held_of};
ghost use Rattle.message.specs.declared.request.Message.{Message};
ghost use Rattle.launcher.specs.declared.desk.Role.TheVariants.{Served};
ghost use Rattle.launcher.specs.declared.desk.Doing.TheVariants.{Quiet};
ghost use Rattle.launcher.specs.Orders.{order_of};
ghost use Rattle.launcher.specs.Rows.{Desk, heard, role_of};
ghost use Rattle.launcher.specs.Laws.{launcher_sound, Serves};

/// Whom an idle launcher serves, or answers at once, is the sender of the request that it takes.
pub fn law_sender_is_served()
    ensures { (l : Desk) (m : Message) → launcher_sound l → l.doing ≡ Quiet → is_request m ≡ true → role_of (order_of m.body) ≡ Served → Serves (heard l m) (held_of m) }
{}
