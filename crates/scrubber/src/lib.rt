//! Patrol scrubbing: which word of memory is scrubbed in which step.
//!
//! No call of this crate takes memory.
#![tactic(auto)]

mod interval;
mod patrol;

pub use interval::Interval;
pub use patrol::{Patrol, scrubs_the_words_in_turn};

#[cfg(test)]
mod tests {
    use super::*;

    #[test]
    fn a_patrol_is_due_in_the_last_of_each_so_many_steps(rt: HostRuntime) {
        for (every, step, want) in [
            (0, 0, None),
            (0, u64::MAX, None),
            (1, 0, Some(0)),
            (64, 0, None),
            (64, 62, None),
            (64, 63, Some(0)),
            (64, 64, None),
            (64, 127, Some(0)),
            (u64::MAX, u64::MAX - 1, Some(0)),
        ] {
            let mut patrol = Patrol::new(every, 8);
            assert_eq!(rt; patrol.due(step), want, "every {every}, step {step}");
            assert_eq!(rt;
                patrol.due_in_turn(step),
                want,
                "every {every}, step {step}"
            );
        }
    }

    #[test]
    fn the_words_go_round(rt: HostRuntime) {
        let mut patrol = Patrol::new(1, 3);
        for want in [0, 1, 2, 0, 1] {
            assert_eq!(rt; patrol.place(), want);
            patrol.done();
        }
        let mut patrol = Patrol::new(1, 3);
        patrol.set_place(2);
        assert_eq!(rt; patrol.due(7), Some(2));
        patrol.done();
        assert_eq!(rt; patrol.due(8), Some(0));
    }

    #[test]
    fn what_is_left_of_an_interval_is_counted_in_any_order(rt: HostRuntime) {
        let mut interval = Interval::new(5);
        for (step, want) in [
            (0, 5),
            (3, 2),
            (4, 1),
            (5, 5),
            (14, 1),
            (15, 5),
            (2, 3),
            (u64::MAX, 5),
        ] {
            assert_eq!(rt; interval.left(step), want, "step {step}");
        }
        let mut none = Interval::new(0);
        assert_eq!(rt; none.left(7), 0);
    }
}
