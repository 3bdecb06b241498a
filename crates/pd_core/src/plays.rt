//! The rule of the table, and what a step tells.
use crate::view::View;
use atomic_table::{Join, Play, Split, TableRule};
use std::marker::{Brand, Model, PhantomData};

/// The rows of all bindings, and the numbers of nodes, of sessions and of contexts.
#[derive(Drop)]
pub struct Rows {
    pub(crate) nodes: u32,
    pub(crate) lists: Vec<Vec<u32>>,
    pub(crate) sessions: u32,
    pub(crate) contexts: u32,
}

impl Model for Rows {
    ghost use Rattle.std.specs.Prelude.{map};
    ghost use Rattle.pd_core.specs.Layout.{Layout};

    ghost Value = { Layout };

    ghost view = { λ r. record { nodes = r.nodes; rows = map (λ v. v.items) r.lists.items; sessions = r.sessions; contexts = r.contexts } };
}

/// The rule of the core's table, as the table's crate asks for one: what holds of the words and of all views between
/// any two steps. specs/Good.antt has it.
pub struct Law;

impl TableRule<u8, View, Rows> for Law {
    ghost use Rattle.pd_core.specs.Steps.{Kept};
    ghost use Rattle.pd_core.specs.Views.{first_view};

    ghost holds = { Kept };

    ghost first = { λ _. first_view };
}

/// Which kind of step a call takes. Each call names its own.
pub(crate) trait Doing {
    ghost use Rattle.pd_core.specs.Layout.{Layout};
    ghost use Rattle.pd_core.specs.Kinds.{Kind};

    ghost layout: { Layout };

    ghost kind: { Kind };
}

impl Doing for Brand {
    ghost use Rattle.std.specs.Prelude.{[]};
    ghost use Rattle.pd_core.specs.Kinds.{load_ends};

    ghost layout = { record { nodes = 0; rows = []; sessions = 0; contexts = 0 } };

    ghost kind = { load_ends };
}

/// The step that `J` names, with what it makes of the pass's view.
pub(crate) struct Does<J> {
    doing: PhantomData<J>,
}

impl<J: Doing> Play<u8, View> for Does<J> {
    ghost use Rattle.pd_core.specs.Steps.{Told};

    ghost then = { λ s me found me'. Told J.layout J.kind s.word s.first s.second me found me' };
}

/// How a view is cut in two at a split, and how two become one at a join.
pub(crate) struct Seats;

impl Split<View> for Seats {
    ghost use Rattle.pd_core.specs.Views.{halved, newcomer};

    ghost left = { halved };

    ghost right = { newcomer };
}

impl Join<View> for Seats {
    ghost use Rattle.pd_core.specs.Views.{joined, spent_view};

    ghost both = { joined };

    ghost spent = { spent_view };
}
