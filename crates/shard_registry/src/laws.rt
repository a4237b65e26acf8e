//! Laws that tie the order to the chain. Each function does nothing: its contract is the law.

ghost use Rattle.std.specs.Prelude.{◌≡◌, ℕ, []};
ghost use Rattle.std.specs.Option.{option_map};
ghost use Rattle.log_base.specs.declared.numbers.Shard.{Shard};
ghost use Rattle.log_model.specs.Chain.{ChainState, ShardState, no_values, apply, is_added, state_in as state_of_shard};
ghost use Rattle.record_frame.specs.declared.values.Lengths.{Lengths};
ghost use Rattle.record_frame.specs.declared.values.Value.TheVariants.{Noop, Cut, Add, Finalise, Trim};
ghost use Rattle.shard_registry.specs.Order.{order_of, added, finalised, is_listed, state_in_order, state_of};

/// The order of a chain changes with an addition and a finalisation as a registry does, and with no
/// other value.
pub fn order_follows_the_chain()
    ensures start { order_of no_values ≡ [] }
    ensures noop { (replicas : ℕ) (chain : ChainState) → order_of (apply replicas chain Noop) ≡ order_of chain }
    ensures cut { (replicas : ℕ) (chain : ChainState) (lengths : Lengths)
        → order_of (apply replicas chain (Cut lengths)) ≡ order_of chain }
    ensures addition { (replicas : ℕ) (chain : ChainState) (shard : Shard)
        → order_of (apply replicas chain (Add shard)) ≡ added (order_of chain) shard.0 }
    ensures finalisation { (replicas : ℕ) (chain : ChainState) (shard : Shard)
        → order_of (apply replicas chain (Finalise shard)) ≡ finalised (order_of chain) shard.0 }
    ensures trim { (replicas : ℕ) (chain : ChainState) (position : ℕ)
        → order_of (apply replicas chain (Trim (record { 0 = position }))) ≡ order_of chain }
{}

/// The order of a chain has a shard where the chain has it, with its state there.
pub fn state_is_that_of_the_chain()
    ensures listed { (chain : ChainState) (shard : ℕ) → is_listed (order_of chain) shard ≡ is_added chain shard }
    ensures state { (chain : ChainState) (shard : ℕ)
        → state_in_order (order_of chain) shard
        ≡ option_map (λ (found : ShardState). state_of found.standing) (state_of_shard chain.shards shard) }
{}
