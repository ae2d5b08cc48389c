// Terms as they are printed, shift:coefficient. A macro, since no function can be called in a constant.

macro_rules! terms {
    ($($shift:literal : $coefficient:expr),* $(,)?) => {
        [$(array::Term { shift: $shift, coefficient: $coefficient }),*]
    };
}

pub(crate) use terms;
