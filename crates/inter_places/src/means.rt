//! Means of vectors.

ghost use Rattle.std.specs.Prelude.{◌≡◌, ℕ, ◌+◌, ◌^◌, ◌≤◌, ◌<◌, ◌+ℤ◌, true, unsigned_abs};
ghost use Rattle.block_plan.specs.BlockMvs.{vector_of};
ghost use Rattle.inter_places.specs.PlaneVectors.{vector_mean, mean_vector, component};

use crate::part::Direction;
use block_plan::InterPrediction;

/// The mean of two numbers, by their sum.
fn mean_of_two(sum: i32) -> i32
    requires { unsigned_abs sum ≤ 2 ^ 16 }
    ensures value { result ≡ vector_mean 2 sum }
    ensures near { unsigned_abs result ≤ 2 ^ 16 }
{
    if sum < 0 {
        -((1 - sum) / 2)
    } else {
        (sum + 1) / 2
    }
}

/// The mean of four numbers, by two sums of two of them.
fn mean_of_four(first: i32, second: i32) -> i32
    requires first { unsigned_abs first ≤ 2 ^ 16 }
    requires second { unsigned_abs second ≤ 2 ^ 16 }
    ensures value { result ≡ vector_mean 4 (first +ℤ second) }
    ensures near { unsigned_abs result ≤ 2 ^ 16 }
{
    let sum = first + second;
    if sum < 0 {
        -((2 - sum) / 4)
    } else {
        (sum + 2) / 4
    }
}

pub(crate) fn component(
    inter: &InterPrediction,
    list: usize,
    quarter: usize,
    along: Direction,
) -> i32
    requires list { list < 2 }
    requires quarter { quarter < 4 }
    ensures value { result ≡ component along (vector_of inter.now quarter list) }
    ensures near { unsigned_abs result ≤ 2 ^ 15 }
{
    let vector = inter.vectors[quarter][list];
    match along {
        Direction::Down => i32::from(vector.row),
        Direction::Across => i32::from(vector.column),
    }
}

/// The sum of the components of two quarters.
fn sum_of(
    inter: &InterPrediction,
    list: usize,
    first: usize,
    second: usize,
    along: Direction,
) -> i32
    requires list { list < 2 }
    requires first { first < 4 }
    requires second { second < 4 }
    ensures value { result ≡ (component along (vector_of inter.now first list) +ℤ component along (vector_of inter.now second list)) }
    ensures near { unsigned_abs result ≤ 2 ^ 16 }
{
    let own = component(inter, list, first, along);
    let other = component(inter, list, second, along);
    own + other
}

/// The component of a 4x4 of a plane, by its number there.
pub(crate) fn mean_vector(
    inter: &InterPrediction,
    list: usize,
    ss_x: bool,
    ss_y: bool,
    n: usize,
    along: Direction,
) -> i32
    requires list { list < 2 }
    requires number { n < 4 }
    requires across { ss_x ≡ true → n < 3 }
    requires down { ss_y ≡ true → n < 2 }
    ensures value { result ≡ mean_vector ss_x ss_y n (λ quarter. component along (vector_of inter.now quarter list)) }
    ensures near { unsigned_abs result ≤ 2 ^ 16 }
{
    match (ss_x, ss_y) {
        (false, false) => component(inter, list, n, along),
        (true, false) => mean_of_two(sum_of(inter, list, n, n + 1, along)),
        (false, true) => mean_of_two(sum_of(inter, list, n, n + 2, along)),
        (true, true) => mean_of_four(
            sum_of(inter, list, 0, 1, along),
            sum_of(inter, list, 2, 3, along),
        ),
    }
}
