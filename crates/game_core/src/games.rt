//! Equality of games.

ghost use Rattle.std.specs.Prelude.{◌≡◌, ◌↔◌, IsTrue};

use game_form::{Action, Class, Game, Row, Step};
use word_core::{Branch, Kind, Player};

/// Whether two games are equal.
pub fn same_game(a: &Game, b: &Game) -> bool
    ensures { IsTrue result ↔ (a.now ≡ b.now) }
{
    same_heads(a, b)
        && same_actions(a.actions(), b.actions())
        && same_classes(a.classes(), b.classes())
        && same_nodes(a.letters(), b.letters())
        && same_nodes(a.firsts(), b.firsts())
}

fn same_heads(a: &Game, b: &Game) -> bool
    ensures { IsTrue result ↔ ((a.now.player ≡ b.now.player) × (a.now.kind ≡ b.now.kind) × (a.now.inputs ≡ b.now.inputs) × (a.now.outputs ≡ b.now.outputs) × (a.now.k ≡ b.now.k) × (a.now.init ≡ b.now.init)) }
{
    same_player(a.player(), b.player())
        && same_kind(a.kind(), b.kind())
        && a.inputs() == b.inputs()
        && a.outputs() == b.outputs()
        && a.k() == b.k()
        && a.init() == b.init()
}

fn same_player(a: Player, b: Player) -> bool
    ensures { IsTrue result ↔ (a ≡ b) }
{
    a == b
}

fn same_kind(a: Kind, b: Kind) -> bool
    ensures { IsTrue result ↔ (a ≡ b) }
{
    a == b
}

fn same_actions(xs: &[Action], ys: &[Action]) -> bool
    ensures { IsTrue result ↔ (xs.now ≡ ys.now) }
{
    if xs.len() != ys.len() {
        return false;
    }
    for i in 0..xs.len() {
        if !same_action(&xs[i], &ys[i]) {
            return false;
        }
    }
    true
}

fn same_action(a: &Action, b: &Action) -> bool
    ensures { IsTrue result ↔ (a.now ≡ b.now) }
{
    same_rows(&a.rows, &b.rows)
}

fn same_rows(xs: &[Row], ys: &[Row]) -> bool
    ensures { IsTrue result ↔ (xs.now ≡ ys.now) }
{
    if xs.len() != ys.len() {
        return false;
    }
    for i in 0..xs.len() {
        if !same_row(&xs[i], &ys[i]) {
            return false;
        }
    }
    true
}

fn same_row(a: &Row, b: &Row) -> bool
    ensures { IsTrue result ↔ (a.now ≡ b.now) }
{
    same_steps(&a.steps, &b.steps)
}

fn same_steps(xs: &[Step], ys: &[Step]) -> bool
    ensures { IsTrue result ↔ (xs.now ≡ ys.now) }
{
    if xs.len() != ys.len() {
        return false;
    }
    for i in 0..xs.len() {
        if !same_step(xs[i], ys[i]) {
            return false;
        }
    }
    true
}

fn same_step(a: Step, b: Step) -> bool
    ensures { IsTrue result ↔ (a ≡ b) }
{
    a == b
}

fn same_classes(xs: &[Class], ys: &[Class]) -> bool
    ensures { IsTrue result ↔ (xs.now ≡ ys.now) }
{
    if xs.len() != ys.len() {
        return false;
    }
    for i in 0..xs.len() {
        if !same_class(&xs[i], &ys[i]) {
            return false;
        }
    }
    true
}

fn same_class(a: &Class, b: &Class) -> bool
    ensures { IsTrue result ↔ (a.now ≡ b.now) }
{
    a.least == b.least && same_options(&a.options, &b.options)
}

fn same_options(xs: &[(u64, u64)], ys: &[(u64, u64)]) -> bool
    ensures { IsTrue result ↔ (xs.now ≡ ys.now) }
{
    if xs.len() != ys.len() {
        return false;
    }
    for i in 0..xs.len() {
        if xs[i].0 != ys[i].0 || xs[i].1 != ys[i].1 {
            return false;
        }
    }
    true
}

fn same_nodes(xs: &[Branch], ys: &[Branch]) -> bool
    ensures { IsTrue result ↔ (xs.now ≡ ys.now) }
{
    if xs.len() != ys.len() {
        return false;
    }
    for i in 0..xs.len() {
        if !same_node(xs[i], ys[i]) {
            return false;
        }
    }
    true
}

fn same_node(a: Branch, b: Branch) -> bool
    ensures { IsTrue result ↔ (a ≡ b) }
{
    a == b
}
