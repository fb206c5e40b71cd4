//! Kahn networks with bounded channels: iterates, rest families, and images that realise operators.
#![tactic(auto)]

ghost use Rattle.std.specs.Prelude.{◌≡◌, ℕ, suc, ◌≤◌, ◌⊎◌, ◌↔◌, List, Some};
ghost use Rattle.std.specs.List.{AllByRecursion};
ghost use Rattle.pld_base.specs.Prefix.{IsPrefixOf};
ghost use Rattle.pld_base.specs.Events.{words_written};
ghost use Rattle.pld_base.specs.Process.{Returned, Process, IsProcess};
ghost use Rattle.pld_base.specs.Channels.{Node, OperatorNode, InputNode, OutputNode, Wiring, IsPointToPoint, Family, NodeEvent, read_words, written_words, KeepsWindow, IsFull, family_of, AfterEach};
ghost use Rattle.pld_kahn.specs.Network.{Network, IsKahnNetwork, network_of};
ghost use Rattle.pld_kahn.specs.Kahn.{kahn, BeginsStream, IsWholeStream};
ghost use Rattle.pld_kahn.specs.Rest.{FollowsTraces, HasEnded, IsAtRest, IsConsistent, IsReached, IsRestFamily, NoneAtFull, standing_of};
ghost use Rattle.pld_kahn.specs.Realises.{Realises, KeepsUp};

/// An operator with its meaning: what it does on finite inputs.
pub trait Means {
    /// Its trace on these inputs, with so many turns.
    ghost trace: { Self → Process };

    /// It is a process with blocking reads.
    ghost laws: { (operator : Self) → IsProcess (trace operator) };
}

/// The five laws hold of each operator's meaning.
pub fn means_a_process<M: Means>()
    ensures { (operator : M) → IsProcess (M.trace operator) }
{}

/// A finite design of processes, with no out-port in two channels, is a Kahn network.
pub fn finite_networks()
    ensures { (operators : List Process) (feeds : List (List ℕ)) (wiring : Wiring)
        → AllByRecursion IsProcess operators → IsPointToPoint wiring
        → IsKahnNetwork (network_of operators feeds wiring) }
{}

/// A network has at most one rest family, and whatever it reaches lies within that.
pub fn one_rest_family()
    ensures one { (window : ℕ) (net : Network) (family other : Family) → IsKahnNetwork net
        → IsRestFamily window net family → IsRestFamily window net other
        → (node : Node) → family node ≡ other node }
    ensures bound { (window : ℕ) (net : Network) (family rest : Family) → IsKahnNetwork net
        → IsReached window net family → IsRestFamily window net rest
        → (node : Node) → IsPrefixOf (family node) (rest node) }
{}

/// Where each node stands at rest is the network's own too.
pub fn one_standing()
    ensures { (window : ℕ) (net : Network) (family other : Family) → IsKahnNetwork net
        → (rest : IsRestFamily window net family) (rest' : IsRestFamily window net other) (node : Node)
        → standing_of (rest.at_rest node) ≡ standing_of (rest'.at_rest node) }
{}

/// Where single events keep the window and lead to a family that follows the traces, each family on
/// the way followed them too.
pub fn reached_within_window()
    ensures { (window : ℕ) (net : Network) (history : List NodeEvent) → IsKahnNetwork net
        → AfterEach (KeepsWindow window net.wiring) history → FollowsTraces net (family_of history)
        → IsReached window net (family_of history) }
{}

/// Each reached family is consistent.
pub fn reached_is_consistent()
    ensures { (window : ℕ) (net : Network) (family : Family)
        → IsReached window net family → IsConsistent window net family }
{}

/// An input at rest has sent all its words or has a full channel, and an output at rest has read all
/// that was written to it.
pub fn hosts_at_rest()
    ensures input { (window : ℕ) (net : Network) (family : Family) (number : ℕ) → FollowsTraces net family
        → IsAtRest window net family (InputNode number)
        ↔ ((words_written (family (InputNode number)) 0 ≡ net.feed number) ⊎ IsFull window net.wiring family (InputNode number) 0) }
    ensures output { (window : ℕ) (net : Network) (family : Family) (number : ℕ) → FollowsTraces net family
        → IsAtRest window net family (OutputNode number)
        ↔ (read_words family (OutputNode number) 0 ≡ written_words net.wiring family (OutputNode number) 0) }
{}

/// Kahn's iterates grow.
pub fn iterates_grow()
    ensures { (net : Network) → IsKahnNetwork net
        → (n : ℕ) (node : Node) (port : ℕ) → IsPrefixOf (kahn net n node port) (kahn net (suc n) node port) }
{}

/// Whatever single events reach over bounded channels begins the Kahn streams.
pub fn words_begin_streams()
    ensures written { (window : ℕ) (net : Network) (family : Family) → IsKahnNetwork net
        → IsReached window net family
        → (node : Node) (port : ℕ) → BeginsStream net node port (written_words net.wiring family node port) }
    ensures read { (window : ℕ) (net : Network) (family : Family) → IsKahnNetwork net
        → IsReached window net family
        → (node : Node) (port : ℕ) → BeginsStream net node port (read_words family node port) }
{}

/// Where all operators have returned and all inputs are sent, each channel has its whole Kahn stream.
pub fn whole_at_the_end()
    ensures { (window : ℕ) (net : Network) (family : Family) → IsKahnNetwork net
        → IsRestFamily window net family
        → ((number : ℕ) → HasEnded net family (OperatorNode number) Returned)
        → ((number : ℕ) → HasEnded net family (InputNode number) Returned)
        → (node : Node) (port : ℕ) → IsWholeStream net node port (written_words net.wiring family node port) }
{}

/// Where no operator stands at a full port, each output has read its whole Kahn stream, each channel
/// out of an operator has its whole one, and so has each channel all of whose words are read.
pub fn whole_at_a_stall()
    ensures outputs { (window : ℕ) (net : Network) (family : Family) → IsKahnNetwork net → 1 ≤ window
        → IsRestFamily window net family → NoneAtFull net family
        → (number : ℕ) → IsWholeStream net (OutputNode number) 0 (read_words family (OutputNode number) 0) }
    ensures written { (window : ℕ) (net : Network) (family : Family) → IsKahnNetwork net → 1 ≤ window
        → IsRestFamily window net family → NoneAtFull net family
        → (node : Node) (port number out : ℕ)
        → net.wiring node port ≡ Some (record { node = OperatorNode number; port = out })
        → IsWholeStream net node port (written_words net.wiring family node port) }
    ensures read { (window : ℕ) (net : Network) (family : Family) → IsKahnNetwork net → 1 ≤ window
        → IsRestFamily window net family → NoneAtFull net family
        → (node : Node) (port : ℕ)
        → read_words family node port ≡ written_words net.wiring family node port
        → IsWholeStream net node port (read_words family node port) }
{}

/// An image that keeps up with its operator realises it.
pub fn realises()
    ensures { (image operator : Process) → IsProcess image → KeepsUp image operator → Realises image operator }
{}
