// "A label call copies the background, runs the active form from the session's origin, turns the page, moves counters, and counts one drawn."
ghost use Rattle.std.specs.Prelude.{◌≡◌};
ghost use Rattle.lent.specs.Lent.{world};
ghost use Rattle.session.specs.Label.{turned_by, printed, printed_on};

use crate::Session;
use active_form::active_declared;

impl Session {
    // "turns the page": with ZB.
    fn turn_page(self, page: &mut [u8])
        ensures { page.new ≡ turned_by self.turn self.width self.length page.old }
    {
        let turn = self.turn;
        let width = self.width as usize;
        let length = self.length as usize;
        if turn == 1 {
            half_turn::turn(page, width, length);
        }
    }

    // A label that is owed, drawn. Whether one is owed, and all else that the table asks, is decided before.
    pub fn label(
        self,
        font: &[u8],
        page: &mut [u8],
        background: &[u8],
        store: &[u8],
        links: &[u16],
        directory: &[u8],
        values: &[u8],
    ) -> Session
        ensures { printed result page.new ≡ printed_on font.now self (world background.now store.now links.now directory.now values.now) page.old }
    {
        pages::copy(page, background);
        let active = self.active;
        let counters = self.counters;
        let clock = self.clock;
        active_form::draw(
            page,
            font,
            store,
            links,
            directory,
            values,
            counters,
            clock,
            self.width,
            self.length,
            self.x,
            self.y,
            active,
        );
        self.turn_page(page);
        let declared = active_declared(store, links, directory, active);
        let moved = self.moved(declared);
        moved.counted()
    }
}
