// What a board is opened with, and the rule of its word.
use crate::view::View;
use atomic_table::TableRule;
use cxl_message::{Opening, Setup};
use std::snapshot::Snapshot;

/// The setup and the opening of the board's runs, and how many events each agent may make.
#[derive(Drop)]
pub struct BoardKey {
    /// The setup of the board's runs.
    pub setup: Setup,
    /// What memory holds before their first event.
    pub opening: Snapshot<Opening>,
    /// How many events each agent may make.
    pub room: u32,
}

/// The rule of the board's word.
pub struct BoardRule;

impl TableRule<(), View, BoardKey> for BoardRule {
    ghost use Rattle.fabric_rule.specs.Board.{KeepsOneRun, device_view};

    ghost holds = { λ k. KeepsOneRun k.setup k.opening.value k.room };

    ghost first = { λ _. device_view 0 };
}
