//! How far the sessions have come, and what an order may not be then.

ghost use Rattle.std.specs.Prelude.{◌≡◌, false, None};
ghost use Rattle.file_model.specs.Rules.{is_between};
ghost use Rattle.script_model.specs.Histories.{no_sessions, is_open, is_viewed, history_after};
ghost use Rattle.script_model.specs.OrderFaults.{names_no_session, is_opening, opens_again, names_closed, needs_view, lacks_view, names_no_tier, is_play_only, is_left_out, order_fault};
ghost use Rattle.view_script.specs.Stages.{history_of};

use script_model::{Mode, Order, SessionStage};
use text_model::ScriptFault;
use token_words::SESSIONS;

/// The stage of each session by its number; 0 is no session's.
#[derive(Drop)]
pub struct Sessions {
    stages: [SessionStage; 65],
}

fn is_session(session: u32) -> bool
    ensures { result ≡ is_between 1 SESSIONS session }
{
    1 <= session && session <= SESSIONS
}

fn names_no_session(order: &Order) -> bool
    ensures { result ≡ names_no_session order.now }
{
    match order.session() {
        Some(session) => !is_session(session),
        None => false,
    }
}

fn is_opening(order: &Order) -> bool
    ensures { result ≡ is_opening order.now }
{
    matches!(order, Order::Open(_))
}

fn needs_view(order: &Order) -> bool
    ensures { result ≡ needs_view order.now }
{
    matches!(order, Order::Step(_) | Order::Frame(_))
}

fn names_no_tier(tiers: u32, order: &Order) -> bool
    ensures { result ≡ names_no_tier tiers order.now }
{
    match order {
        Order::Turn(tier) => tiers <= *tier,
        _ => false,
    }
}

fn is_play_only(order: &Order) -> bool
    ensures { result ≡ is_play_only order.now }
{
    matches!(
        order,
        Order::Step(_) | Order::Turn(_) | Order::Settle | Order::Status
    )
}

fn is_left_out(mode: Mode, order: &Order) -> bool
    ensures { result ≡ is_left_out mode order.now }
{
    match mode {
        Mode::Play => false,
        Mode::Serve => is_play_only(order),
    }
}

fn is_open(stage: SessionStage) -> bool
    ensures { result ≡ is_open stage }
{
    matches!(stage, SessionStage::Opened | SessionStage::Viewed)
}

fn is_viewed(stage: SessionStage) -> bool
    ensures { result ≡ is_viewed stage }
{
    matches!(stage, SessionStage::Viewed)
}

impl Sessions {
    /// No session is open.
    pub fn new() -> Sessions
        ensures { history_of result ≡ no_sessions }
    {
        Sessions {
            stages: [SessionStage::Closed; 65],
        }
    }

    fn stage(&self, session: u32) -> SessionStage
        ensures { result ≡ history_of self.now session }
    {
        match self.stages.get(session as usize) {
            Some(stage) => *stage,
            None => SessionStage::Closed,
        }
    }

    fn opens_again(&self, order: &Order) -> bool
        ensures { result ≡ opens_again (history_of self.now) order.now }
    {
        match order.session() {
            Some(session) => is_opening(order) && is_open(self.stage(session)),
            None => false,
        }
    }

    fn names_closed(&self, order: &Order) -> bool
        ensures { result ≡ names_closed (history_of self.now) order.now }
    {
        match order.session() {
            Some(session) => !is_opening(order) && !is_open(self.stage(session)),
            None => false,
        }
    }

    fn lacks_view(&self, order: &Order) -> bool
        ensures { result ≡ lacks_view (history_of self.now) order.now }
    {
        match order.session() {
            Some(session) => needs_view(order) && !is_viewed(self.stage(session)),
            None => false,
        }
    }

    /// The least fault of the order in the line of this number.
    #[tactic(auto, unfolding(script_model::specs::OrderFaults::order_fault))]
    pub fn fault(&self, mode: Mode, tiers: u32, number: u32, order: &Order) -> Option<ScriptFault>
        ensures value { result ≡ order_fault mode tiers (history_of self.now) number order.now }
        ensures numbered { result ≡ None → names_no_session order.now ≡ false }
    {
        if names_no_session(order) {
            return Some(ScriptFault::SessionOut(number));
        }
        if self.opens_again(order) {
            return Some(ScriptFault::AlreadyThere(number));
        }
        if self.names_closed(order) {
            return Some(ScriptFault::NotThere(number));
        }
        if self.lacks_view(order) {
            return Some(ScriptFault::NoView(number));
        }
        if names_no_tier(tiers, order) {
            return Some(ScriptFault::NoTier(number));
        }
        if is_left_out(mode, order) {
            return Some(ScriptFault::PlayOnly(number));
        }
        None
    }

    /// Takes note of the order.
    #[tactic(auto, unfolding(script_model::specs::Histories::history_after))]
    pub fn take(&mut self, order: &Order)
        requires { names_no_session order.now ≡ false }
        ensures { history_of self.new ≡ history_after (history_of self.old) order.now }
    {
        match order {
            Order::Open(session) => self.stages[*session as usize] = SessionStage::Opened,
            Order::View(session, _) => self.stages[*session as usize] = SessionStage::Viewed,
            Order::Close(session) => self.stages[*session as usize] = SessionStage::Closed,
            Order::Step(_)
            | Order::Frame(_)
            | Order::Free(_)
            | Order::Turn(_)
            | Order::Settle
            | Order::Status => {}
        }
    }
}
