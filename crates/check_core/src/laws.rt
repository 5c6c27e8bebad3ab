//! Designs worked by hand, by the definition of each refusal.

ghost use Rattle.check_core.specs.Samples.{wide_is_refused, narrow_is_refused, second_driver_is_refused, latch_is_refused, default_is_accepted, early_read_is_refused, cycle_is_accepted, other_let_is_refused, second_name_is_refused, undriven_is_refused, unbound_is_refused, unknown_port_is_refused, connected_is_accepted, parts_are_accepted, part_is_refused, early_part_is_refused, high_part_is_refused};

/// Small designs, worked by hand: one for each refusal, and designs that are accepted.
pub fn checks_the_samples()
    ensures wide { wide_is_refused }
    ensures narrow { narrow_is_refused }
    ensures second_driver { second_driver_is_refused }
    ensures latch { latch_is_refused }
    ensures default { default_is_accepted }
    ensures early_read { early_read_is_refused }
    ensures cycle { cycle_is_accepted }
    ensures other_let { other_let_is_refused }
    ensures second_name { second_name_is_refused }
    ensures undriven { undriven_is_refused }
    ensures unbound { unbound_is_refused }
    ensures unknown_port { unknown_port_is_refused }
    ensures connected { connected_is_accepted }
    ensures parts { parts_are_accepted }
    ensures part { part_is_refused }
    ensures early_part { early_part_is_refused }
    ensures high_part { high_part_is_refused }
{}
