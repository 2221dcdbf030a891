//! A choice of the width of rows.

/// Runs a function that is generic in the width at the least width of 1, 2, 4, 8, 16 whose rows
/// have room for `$count` numbers, which is at most 1,024: `each_width!(n, run(a, b))` runs one of
/// `run::<1>(a, b)` to `run::<16>(a, b)`.
#[macro_export]
macro_rules! each_width {
    ($count:expr, $($run:ident)::+($($argument:expr),* $(,)?)) => {{
        let count: usize = $count;
        if count <= 64 {
            $($run)::+::<1>($($argument),*)
        } else if count <= 128 {
            $($run)::+::<2>($($argument),*)
        } else if count <= 256 {
            $($run)::+::<4>($($argument),*)
        } else if count <= 512 {
            $($run)::+::<8>($($argument),*)
        } else {
            $($run)::+::<16>($($argument),*)
        }
    }};
}
