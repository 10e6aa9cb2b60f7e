//! Sums in 128 bits.
ghost use Rattle.std.specs.Prelude.{◌≡◌, ◌^◌, ◌+◌, ◌<◌, ◌≤◌, length, ◌+ℤ◌, ◌-ℤ◌, option_to_list};
ghost use Rattle.fq_ops.specs.Aggregate.{int_sum};
ghost use Rattle.fq_ops.specs.Sums.{AllFit, IsWithin};

/// The sum and the number of values, of at most 2^40 numbers of 64 bits.
#[derive(Clone, Copy)]
pub struct Total {
    /// The sum.
    pub sum: i128,
    /// How many values it is of.
    pub count: u64,
}

impl Total {
    /// Adds a value, if there is one.
    pub fn add(&mut self, value: Option<i64>)
        requires within { IsWithin (2 ^ 40) self.old.sum }
        requires few { self.old.count < 2 ^ 40 }
        ensures sum { self.new.sum ≡ self.old.sum +ℤ int_sum (option_to_list value) }
        ensures count { self.new.count ≡ self.old.count + length (option_to_list value) }
        ensures fits { AllFit (option_to_list value) }
    {
        if let Some(value) = value {
            self.sum += value as i128;
            self.count += 1;
        }
    }

    /// Removes one of the values, if there is one.
    pub fn remove(&mut self, value: Option<i64>)
        requires within { IsWithin (2 ^ 40) self.old.sum }
        requires one_of_them { length (option_to_list value) ≤ self.old.count }
        ensures sum { self.new.sum ≡ self.old.sum -ℤ int_sum (option_to_list value) }
        ensures count { self.new.count + length (option_to_list value) ≡ self.old.count }
    {
        if let Some(value) = value {
            self.sum -= value as i128;
            self.count -= 1;
        }
    }
}
