// The values of a hierarchy, while a scheme takes them between depths, in place.
ghost use Rattle.std.specs.Prelude.{◌≡◌, length};

use hierarchy::Hierarchy;
use schemes::Scheme;

// Its methods change nothing but the values, and say so: `kept`. A struct that holds a `&mut` has to; without it each would ask for `whole`. That a
// level is below the finest is asked where one is handed in: it is no fact about the values.
#[derive(Drop)]
pub(crate) struct Transform<'a, H: Hierarchy, S: Scheme> {
    pub(crate) h: &'a H,
    pub(crate) s: &'a S,
    pub(crate) values: &'a mut [S::Value],
    ghost whole: { length values.now ≡ (H.meaning h.now).vertices (H.meaning h.now).levels },
}
