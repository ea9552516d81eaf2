// What is asked of each code's truths, kept for the rounds.
ghost use Rattle.codes.specs.Sighted.{SightsIn};

use codes::layout::Layout;

// Nobody asks for a code that is not proper.
pub fn see_all(layout: &Layout, sights: &mut [u16])
    requires { SightsIn layout.now.looks sights.old }
    ensures { SightsIn layout.now.looks sights.new }
{
    for (u, sight) in sights.iter_mut().enumerate() {
        if layout.looks.proper(u) {
            *sight = layout.sight_of(u);
        }
    }
}
