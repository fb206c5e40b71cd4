//! A leaf in a round: what it takes, what it offers, and that the account of every channel goes on.

ghost use Rattle.std.specs.Prelude.{◌≡◌, ℕ, ◌+◌, ◌<◌, List, Option};
ghost use Rattle.std.specs.List.{sum_by};
ghost use Rattle.net_switch.specs.declared.packet.Packet.{Packet};
ghost use Rattle.net_switch.specs.Switch.{weighs};
ghost use Rattle.net_tree.specs.Links.{sum_to};
ghost use Rattle.channel_account.specs.Network.{Node, Ends, IsLink, IsChannel, channel};
ghost use Rattle.channel_account.specs.Account.{IsAccount};
ghost use Rattle.fabric_run.specs.World.{Rows};
ghost use Rattle.fabric_keeps.specs.Parts.{BeforeRound, next_node, next_offer};

/// A round of all leaves keeps the account of each channel, whatever carries packets, as long as it loses none: what was
/// under way comes to a leaf or is kept, and then what is offered joins it.
pub fn accounts_go_on()
    ensures { (window : ℕ) (tables : Rows) (size round : ℕ) (old new : ℕ → Node) (arrival : ℕ → Option Packet) (kept before after : List Packet) → BeforeRound window tables size round old arrival
        → ((g : Packet → ℕ) → sum_by g before ≡ sum_by g kept + sum_to size (λ i. weighs g (arrival i)))
        → ((g : Packet → ℕ) → sum_by g after ≡ sum_by g kept + sum_to size (λ i. weighs g (next_offer round old arrival i)))
        → ((i : ℕ) → i < size → new i ≡ next_node round old arrival i)
        → ((e : Ends) → IsLink tables e → IsAccount window (channel (record { nodes = old; under = before }) e))
        → (e : Ends) → IsLink tables e → IsAccount window (channel (record { nodes = new; under = after }) e) }
{}
