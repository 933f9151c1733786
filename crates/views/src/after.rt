// What a module holds of views: at opening, and after a step.
ghost use Rattle.std.specs.Prelude.{◌≡◌, cond, ◌≤◌, get_or, ltb};
ghost use Rattle.words.specs.Array.{array};
ghost use Rattle.views.specs.Views.{full_views, no_views, fresh_views, views_after};

use crate::read::align_views;
use crate::word::view_word;
use crate::{Adopted, Views};
use words::array::filled;
use words::bits::full_of;

// Every view is full, as at opening.
fn full_views(n: usize) -> Views
    requires { n ≤ 16 }
    ensures { result ≡ full_views n }
{
    let full = full_of(n);
    Views {
        words: filled(n, view_word(full)),
        earlier: full,
        adopted: full,
        out: false,
    }
}

// No views, as where the setup is not partitionable.
pub fn no_views() -> Views
    ensures { result ≡ no_views }
{
    Views {
        words: [0; 16],
        earlier: 0,
        adopted: 0,
        out: false,
    }
}

// The views of a fresh module.
pub fn fresh_views(partitionable: bool, n: usize) -> Views
    requires { n ≤ 16 }
    ensures { result ≡ fresh_views partitionable n }
{
    if partitionable {
        return full_views(n);
    }
    no_views()
}

// After a step whose read has the view words `this`; `local` is the local view before it.
pub fn views_after(n: usize, split: u32, views: Views, this: [u32; 16], local: u32) -> Views
    requires { n ≤ 16 }
    ensures { result ≡ views_after n views (array n (λ j. cond (ltb j split) (get_or views.words j 0) (get_or this j 0))) this local }
{
    let mut voted = views.words;
    align_views(n, split, &mut voted, &this);
    let was = Adopted {
        view: views.adopted,
        out: views.out,
    };
    let next = was.after(n, &voted);
    Views {
        words: this,
        earlier: local,
        adopted: next.view,
        out: next.out,
    }
}
