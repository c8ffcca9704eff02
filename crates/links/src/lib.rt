#![tactic(auto)]
// The end of a link: its label, and the events that become its enter and exit.
ghost use Rattle.std.specs.Prelude.{◌≡◌, ◌+◌, ◌*◌, ◌^◌, ◌≤◌, ◌<◌, length};
ghost use Rattle.reading.specs.Events.{enter_from, queue_numbers, largest};
ghost use Rattle.reading.specs.Machine.{Rules};
ghost use Rattle.rooms.specs.Standing.{viewed, here};
ghost use Rattle.rooms.specs.Steps.{Holding, Stepped, staying};
ghost use Rattle.links.specs.Linked.{linked};

use labels::Destination;
use reading::{Link, Opener, Target, kind};
use rooms::{Parser, Span, View};

// A link: its `[` becomes the enter; its `]` the exit, whose span goes to behind the destination;
// the destination's events go.
pub fn closes_link(p: &mut Parser, text: &[u8], v: &View, h: Span, t: Target, o: Opener)
    requires to_bound { v.now.base + h.to ≤ largest }
    requires container_lt_enter_from { t.container < enter_from }
    requires span_bound { o.span + 2 ≤ o.event }
    requires event_lt_events { o.event < p.old.at.events }
    requires queue_numbers_in_bounds { p.old.at.events * queue_numbers ≤ length p.old.queue.now }
    requires labels_in_bounds { p.old.at.labels ≤ length p.old.labels.now }
    requires labels_len_bound { length p.old.labels.now < 2 ^ 32 }
    requires links_bound { p.old.at.links.0 + 1 < 2 ^ 32 }
    ensures stepped { (rules : Rules) → Stepped p.old p.new (staying p.old (linked rules text.now p.old.labels.now (viewed v.now) (here h p.old.at) t o)) }
    ensures openers { p.new.at.openers ≡ p.old.at.openers }
    ensures opener_room { p.new.openers.now ≡ p.old.openers.now }
    ensures held { Holding p.old → Holding p.new }
{
    let at = p.at;
    let d = Destination {
        event: o.event,
        span: o.span,
        inline: t.inline,
        base: v.base,
        at: v.place(h.from),
        link: at.links,
    };
    // Lent through names of their own: the proof speaks of what each room holds behind the call.
    let queue = &mut *p.queue;
    let labels = &mut *p.labels;
    let label = labels::label_of(text, queue, at.events, d, labels, at.labels, at.fits);
    p.set_kind(o.span, kind::ENTER + t.container, label.home);
    p.set_kind_to(
        o.event - 1,
        kind::EXIT + t.container,
        label.home,
        v.place(h.to),
    );
    p.cut(o.event);
    p.at.last = None;
    p.at.labels = label.labels;
    p.at.fits = label.fits;
    p.at.links = Link(at.links.0 + 1);
}
