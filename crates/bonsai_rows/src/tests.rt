//! The specification whose only demand is that each request `r` is followed by a grant `g`.

use cover_sets::covers;
use dual_game::{automata, automaton, game, normal_of};
use ltl_form::{Node, holds};
use nba_trim::trim;
use std::test::Fail;
use tlsf_basic::read_spec;
use word_core::{Automaton, Cube, Edge, Lasso, Letter, Player, State};

const RESPONSE: &[u8] =
    b"INFO{SEMANTICS:Mealy TARGET:Mealy}MAIN{INPUTS{r;}OUTPUTS{g;}GUARANTEE{G (r -> F g);}}";

fn edge(care: u64, want: u64, next: u32, marked: bool) -> Edge {
    Edge {
        cube: Cube { care, want },
        next,
        marked,
    }
}

#[test]
fn negated_normal_form(rt: HostRuntime) -> Result<(), Fail> {
    let alloc = rt.alloc();
    let spec = read_spec(alloc, RESPONSE, false)?;
    let negated = normal_of(alloc, &spec, Player::System)?;
    let request = Node::Lit {
        signal: 0,
        positive: true,
    };
    let no_grant = Node::Lit {
        signal: 1,
        positive: false,
    };
    let nodes = [
        Node::True,
        request,
        Node::False,
        no_grant,
        Node::Release(2, 3),
        Node::And(1, 4),
        Node::Until(0, 5),
    ];
    assert_eq!(rt; negated.nodes(), nodes.as_slice());
    let asked = Lasso::make(Vec::new(alloc), vec![in alloc; Letter(1)]?);
    assert!(rt; asked.is_some());
    if let Some(lasso) = asked {
        assert!(rt; holds(alloc, &negated, &lasso)?);
    }
    Ok(())
}

#[test]
fn covers_of_the_root(rt: HostRuntime) -> Result<(), Fail> {
    let alloc = rt.alloc();
    let spec = read_spec(alloc, RESPONSE, false)?;
    let negated = normal_of(alloc, &spec, Player::System)?;
    assert_eq!(rt; negated.root(), 6);
    let found = covers(alloc, &negated, &[6])?;
    assert_eq!(rt; found.len(), 2);
    assert_eq!(rt; found[0].literals.as_slice(), [].as_slice());
    assert_eq!(rt; found[0].next.as_slice(), [6].as_slice());
    assert_eq!(rt; found[0].postponed.as_slice(), [6].as_slice());
    assert_eq!(rt; found[1].literals.as_slice(), [1, 3].as_slice());
    assert_eq!(rt; found[1].next.as_slice(), [4].as_slice());
    assert_eq!(rt; found[1].postponed.as_slice(), [].as_slice());
    Ok(())
}

#[test]
fn automaton_of_the_system(rt: HostRuntime) -> Result<(), Fail> {
    let alloc = rt.alloc();
    let spec = read_spec(alloc, RESPONSE, false)?;
    let pair = automata(alloc, &spec)?;
    let states = pair.system.states();
    assert_eq!(rt; states.len(), 2);
    let first = [edge(0, 0, 0, false), edge(3, 1, 1, true)];
    assert_eq!(rt; states[0].edges(), first.as_slice());
    assert_eq!(rt; states[1].edges(), [edge(2, 0, 1, true)].as_slice());
    assert_eq!(rt; pair.system.init(), Some(0));
    let alone = automaton(alloc, &spec, Player::System)?;
    assert_eq!(rt; alone.states().len(), 2);
    Ok(())
}

#[test]
fn classes_of_the_system(rt: HostRuntime) -> Result<(), Fail> {
    let alloc = rt.alloc();
    let spec = read_spec(alloc, RESPONSE, false)?;
    let a = automaton(alloc, &spec, Player::System)?;
    let g = game(alloc, &a, &spec.names, Player::System, 0)?;
    let classes = g.classes();
    assert_eq!(rt; classes.len(), 2);
    let (first, second) = (&classes[0], &classes[1]);
    assert_eq!(rt; first.least, 0);
    assert_eq!(rt; first.options.as_slice(), [(0, 0), (2, 1)].as_slice());
    assert_eq!(rt; second.least, 1);
    assert_eq!(rt; second.options.as_slice(), [(1, 0), (2, 1)].as_slice());
    Ok(())
}

#[test]
fn nothing_lives(rt: HostRuntime) -> Result<(), Fail> {
    let alloc = rt.alloc();
    let edges = vec![in alloc; edge(0, 0, 0, false), edge(0, 0, 1, true)]?;
    let end = State {
        edges: Vec::new(alloc),
    };
    let states = vec![in alloc; State { edges }, end]?;
    let whole = Automaton::make(2, states, Some(0));
    assert!(rt; whole.is_some());
    if let Some(a) = whole {
        let trimmed = trim(alloc, &a)?;
        assert_eq!(rt; trimmed.states().len(), 0);
        assert_eq!(rt; trimmed.init(), None);
    }
    Ok(())
}
