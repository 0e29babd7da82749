//! Laws that tie games to the automata that they count on.

ghost use Rattle.dual_game.specs.Automata.{AutomatonIsOne};
ghost use Rattle.dual_game.specs.Counting.{CountingIsSound, CountingIsExact, LanesAreCounts};
ghost use Rattle.dual_game.specs.Machines.{HeldListIsOne, HeldMachineIsOne, WholeMachineIsOne};
ghost use Rattle.dual_game.specs.Plays.{KeepsAbove, PlayIsOne, PlaysMeetOnce};
ghost use Rattle.dual_game.specs.Winning.{KeptIsRefused, OnlyOneWins};

/// A player of a specification has one automaton, or passes one limit, and not both. So what is said of a player's
/// automaton is said of the one that is made.
pub fn automaton_is_one()
    ensures { AutomatonIsOne }
{}

/// Lanes are greatest counts: after any letters a lane of a game is the smaller of the bound and one more and the greatest
/// count of a run that ends in its state, or -1 where there is no such run.
pub fn lanes_are_counts()
    ensures { LanesAreCounts }
{}

/// Counting is sound: a machine that keeps every lane of a game at most at the bound, along all its plays, keeps the
/// bound on the automaton whose edges the game counts. So what the solver finds holds of runs.
pub fn counting_is_sound()
    ensures { CountingIsSound }
{}

/// Counting is exact: a machine that keeps the bound on the automaton keeps every lane at most at the bound. So a game is
/// lost only where no machine of its kind, of any size, keeps the bound.
pub fn counting_is_exact()
    ensures { CountingIsExact }
{}

/// A machine that keeps some bound on an automaton has no play that the automaton accepts.
pub fn kept_is_refused()
    ensures { KeptIsRefused }
{}

/// A machine that keeps a bound keeps each greater one.
pub fn keeps_above()
    ensures { KeepsAbove }
{}

/// Two machines of opposite players, one of which moves first, have one unrolling in common as a play, and it is that of
/// a lasso: each finite play of both is a prefix of it.
pub fn plays_meet_once()
    ensures { PlaysMeetOnce }
{}

/// Against a lasso of the other side's valuations a machine has one unrolling as a play, and it is that of a lasso.
pub fn play_is_one()
    ensures { PlayIsOne }
{}

/// Only one player wins: two machines of opposite players play one lasso together, and one of their automata accepts it.
pub fn only_one_wins()
    ensures { OnlyOneWins }
{}

/// The maximal held vectors of a game have one ascending list. So what is said of such a list is said of the one that
/// the solver finds.
pub fn held_list_is_one()
    ensures { HeldListIsOne }
{}

/// The maximal held vectors of a game have one machine. So what is said of such a machine is said of the one that is made.
pub fn held_machine_is_one()
    ensures { HeldMachineIsOne }
{}

/// An automaton over at most 40 signals has for each player and each bound up to 10,000 at most one machine that is that of
/// the maximal held vectors in each of its games.
pub fn whole_machine_is_one()
    ensures { WholeMachineIsOne }
{}
