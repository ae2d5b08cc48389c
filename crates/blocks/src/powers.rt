// Powers of a symbol, and the root of unity that the transform takes.
ghost use Rattle.std.specs.Prelude.{◌≡◌, ◌<◌};
ghost use Rattle.field.specs.Meaning.{power};
ghost use Rattle.algebra.specs.Transforms.{root as root_of};

use array::Shape;
use field::{Field, Symbol};

// The k-th power of `a`: a square for each bit of k, the highest first.
pub(crate) fn power_of<F: Field>(f: &F, a: Symbol, k: usize) -> Symbol
    requires { k < 512 }
    ensures { result ≡ power (F.Field.meaning f.now) a k }
{
    let mut p = 1;
    for i in (0..9u32).rev() {
        // Before the first bit that is 1 the power is 1, and so is its square.
        if k >> i != 0 {
            p = f.product(p, p);
            if (k >> i) & 1 == 1 {
                p = f.product(a, p);
            }
        }
    }
    p
}

// The root of unity of the transform whose length is the circulant size.
pub fn root<F: Field>(f: &F, shape: &Shape) -> Symbol
    ensures { result ≡ root_of (F.Field.meaning f.now) shape.now.size }
{
    power_of(f, f.generator(), (f.order() as usize - 1) / shape.size())
}
