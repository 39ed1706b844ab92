// Plays of cars and trains whose answers were worked out by hand.
#![tactic(auto)]

#[cfg(test)]
mod tests {
    use std::process::Abort;
    use std::test::Fail;
    use trains::Trains;

    // Makes room, where that is allowed.
    fn placed(trains: &mut Trains, rank: u32, size: u32) -> Option<u32> {
        let allowed = rank <= trains.count() && rank < 8 && size <= 128;
        if !allowed || !trains.has_free_car() {
            return None;
        }
        Some(trains.place(rank, size))
    }

    // Takes the first car, where none is being emptied.
    fn taken(trains: &mut Trains) -> Option<u32> {
        if trains.is_emptying() {
            return None;
        }
        trains.take_first()
    }

    #[test]
    fn cars_fill_one_after_another(rt: HostRuntime) -> Result<(), Fail> {
        let mut trains = Trains::new();
        let places = [
            (0, 3, 0),
            (1, 64, 128),
            (1, 64, 192),
            (1, 2, 256),
            (0, 5, 3),
        ];
        for (rank, size, address) in places {
            assert_eq!(rt; placed(&mut trains, rank, size), Some(address));
        }
        assert_eq!(rt; trains.count(), 2);
        assert_eq!(rt; trains.cars(), 3);
        assert_eq!(rt; trains.arrival(), 1);
        for (car, rank, filled) in [(0, 0, 8), (1, 1, 128), (2, 1, 2), (3, 8, 0), (64, 8, 0)] {
            assert_eq!(rt; trains.rank(car), rank);
            assert_eq!(rt; trains.filled(car), filled);
            assert_eq!(rt; trains.is_in_use(car), car < 3);
        }
        for (car, than, later) in [
            (1, 0, true),
            (2, 1, true),
            (1, 2, false),
            (0, 2, false),
            (2, 2, false),
        ] {
            assert_eq!(rt; trains.is_later(car, than), later);
        }
        if trains.count() != 2 {
            return Err("no second train".into());
        }
        assert_eq!(rt; trains.train(1), [1, 2].as_slice());
        Ok(())
    }

    #[test]
    fn a_car_is_emptied(rt: HostRuntime) {
        let mut trains = Trains::new();
        for (rank, address) in [(0, 0), (0, 128), (1, 256)] {
            assert_eq!(rt; placed(&mut trains, rank, 100), Some(address));
        }
        assert_eq!(rt; taken(&mut trains), Some(0));
        assert_eq!(rt; trains.is_emptying(), true);
        assert_eq!(rt; trains.first_car(), Some(1));
        // the car that is being emptied is not free
        assert_eq!(rt; placed(&mut trains, 1, 100), Some(384));
        assert_eq!(rt; trains.is_later(2, 1), true);
        trains.release();
        assert_eq!(rt; trains.is_in_use(0), false);
        assert_eq!(rt; trains.is_emptying(), false);
        assert_eq!(rt; placed(&mut trains, 1, 100), Some(0));
        assert_eq!(rt; trains.is_later(0, 3), true);
        // the last car of the first train goes, and the train with it
        assert_eq!(rt; taken(&mut trains), Some(1));
        assert_eq!(rt; trains.first_car(), None);
        assert_eq!(rt; trains.count(), 2);
        trains.release();
        assert_eq!(rt; trains.count(), 1);
        assert_eq!(rt; trains.rank(3), 0);
        assert_eq!(rt; trains.first_car(), Some(2));
        trains.free_first_train();
        assert_eq!(rt; trains.count(), 0);
        assert_eq!(rt; trains.cars(), 0);
        assert_eq!(rt; trains.is_in_use(3), false);
    }

    #[test]
    fn arrival_ranks(rt: HostRuntime) {
        let mut trains = Trains::new();
        assert_eq!(rt; trains.arrival(), 0);
        for (rank, arrival) in [(0, 1), (1, 1), (1, 1), (1, 1), (1, 2), (2, 2)] {
            assert_eq!(rt; placed(&mut trains, rank, 128).is_some(), true);
            assert_eq!(rt; trains.arrival(), arrival);
        }
        for rank in 3..8 {
            assert_eq!(rt; placed(&mut trains, rank, 128).is_some(), true);
        }
        for _ in 0..4 {
            assert_eq!(rt; placed(&mut trains, 7, 128).is_some(), true);
        }
        // eight trains stand, and the last has five cars
        assert_eq!(rt; trains.arrival(), 7);
        assert_eq!(rt; placed(&mut trains, 8, 1), None);
    }

    #[test]
    fn all_cars_are_used(rt: HostRuntime) {
        let mut trains = Trains::new();
        for car in 0..64 {
            assert_eq!(rt; trains.has_free_car(), true);
            assert_eq!(rt; placed(&mut trains, 0, 128), Some(128 * car));
        }
        assert_eq!(rt; trains.has_free_car(), false);
    }
}
