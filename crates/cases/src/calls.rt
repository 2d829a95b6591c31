// The calls by their numbers in a record.
use changes::exports::{migration_add_row, migration_withdraw_row};
use compose::exports::migration_compose;
use migration::exports::{
    migration_check_instance, migration_check_mapping, migration_check_pushed, migration_check_raw,
    migration_check_schema, migration_delta, migration_first_path, migration_path_chain,
    migration_pi, migration_pushed_to_raw, migration_raw_to_pushed, migration_sigma,
};
use query::exports::migration_query;

// A call that leaves what it is lent as it is, but for a tray.
#[derive(Clone, Copy, Debug, PartialEq, Eq)]
pub(crate) enum Call {
    CheckSchema,
    CheckMapping,
    CheckInstance,
    FirstPath,
    Delta,
    Sigma,
    Pi,
    CheckPushed,
    CheckRaw,
    PushedToRaw,
    RawToPushed,
    PathChain,
    Query,
    Compose,
}

// A call that changes a run, in its tray.
#[derive(Clone, Copy, Debug, PartialEq, Eq)]
pub(crate) enum Change {
    AddRow,
    WithdrawRow,
}

// What a record asks for.
#[derive(Clone, Copy, Debug, PartialEq, Eq)]
pub(crate) enum Asked {
    Call(Call),
    Change(Change),
}

impl From<u8> for Asked {
    // What the first byte of a record asks for; a number that has no other meaning asks for `RawToPushed`.
    fn from(number: u8) -> Asked {
        match number {
            0 => Asked::Call(Call::CheckSchema),
            1 => Asked::Call(Call::CheckMapping),
            2 => Asked::Call(Call::CheckInstance),
            3 => Asked::Call(Call::FirstPath),
            4 => Asked::Call(Call::Delta),
            5 => Asked::Call(Call::Sigma),
            6 => Asked::Call(Call::Pi),
            7 => Asked::Call(Call::CheckPushed),
            8 => Asked::Call(Call::CheckRaw),
            9 => Asked::Call(Call::PushedToRaw),
            11 => Asked::Call(Call::PathChain),
            12 => Asked::Call(Call::Query),
            13 => Asked::Change(Change::AddRow),
            14 => Asked::Change(Change::WithdrawRow),
            15 => Asked::Call(Call::Compose),
            _ => Asked::Call(Call::RawToPushed),
        }
    }
}

// The eight sheets of a record, in their order: a call takes as many as it has use for.
pub(crate) type Sheets<'a> = [&'a [u8]; 8];

// Makes a call, and gives its answer.
pub(crate) fn answer(call: Call, sheets: Sheets<'_>, tray: &mut [u8]) -> u64 {
    let [s, t, f, i, j, k, l, m] = sheets;
    match call {
        Call::CheckSchema => migration_check_schema(s),
        Call::CheckMapping => migration_check_mapping(s, t, f),
        Call::CheckInstance => migration_check_instance(s, t),
        Call::FirstPath => migration_first_path(s, t, tray),
        Call::Delta => migration_delta(s, t, f, i, tray),
        Call::Sigma => migration_sigma(s, t, f, i, tray),
        Call::Pi => migration_pi(s, t, f, i, tray),
        Call::CheckPushed => migration_check_pushed(s, t, f, i, j, k),
        Call::CheckRaw => migration_check_raw(s, t, f, i, j, k),
        Call::PushedToRaw => migration_pushed_to_raw(s, t, f, i, j, k, tray),
        Call::RawToPushed => migration_raw_to_pushed(s, t, f, i, j, k, tray),
        Call::PathChain => migration_path_chain(s, t, f, tray),
        Call::Query => migration_query(s, t, f, i, j, k, l, m, tray),
        Call::Compose => migration_compose(s, t, f, i, j, tray),
    }
}

// 2 to the power 56: what is below it has room for a byte more.
const SEVEN_BYTES: u64 = 72057594037927936;

// The number that bytes are, most significant first, of which only the last eight count: 8 bytes in a record, 0 where there are none.
fn number_of(bytes: &[u8]) -> u64 {
    bytes.iter().fold(
        0,
        |number, byte| number % SEVEN_BYTES * 256 + u64::from(*byte),
    )
}

// Changes a run in its tray, and gives the answer. Of the sheets the last four are an added row, the run's length, the table, and the row that is withdrawn.
pub(crate) fn changed(
    change: Change,
    sheets: Sheets<'_>,
    run: &mut [u8],
    pushed: &mut [u8],
) -> u64 {
    let [s, t, f, _, added, length, table, withdrawn] = sheets;
    let length = number_of(length);
    let table = number_of(table);
    match change {
        Change::AddRow => migration_add_row(s, t, f, run, length, table, added, pushed),
        Change::WithdrawRow => {
            let row = number_of(withdrawn);
            migration_withdraw_row(s, t, f, run, length, table, row, pushed)
        }
    }
}
