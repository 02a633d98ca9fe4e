use tf_actions::Order;
use tf_states::FlowState;

/// How a session began: the flow runs, or it had ended already, in that state.
#[derive(Debug, Drop)]
pub enum Entered {
    Running,
    Ended(FlowState),
}

/// What a hand does next: it performs an order, or waits for the other hands, or the flow has ended in that state,
/// or it is suspended.
#[derive(Debug, Drop)]
pub enum Turn {
    Start(Order),
    Idle,
    Ended(FlowState),
    Suspended,
}
