//! Laws of methods and headers that the layers above rest on.
ghost use Rattle.amqp_method.specs.Laws.{OneMethod, OneHeader, MethodIsRead, HeaderIsRead, MethodIsEncoded, HeaderIsEncoded, DistinctIds, OnlyClientOpens, EachIsSent, ContentKinds, WantsAsTable};

/// No octets encode two methods.
pub fn one_method()
    ensures { OneMethod }
{}

/// No octets encode two content headers.
pub fn one_header()
    ensures { OneHeader }
{}

/// Octets that encode a method are read as that method, and octets that encode a content header as that header.
pub fn encoded_is_read()
    ensures method { MethodIsRead }
    ensures header { HeaderIsRead }
{}

/// The octets that are written of a method whose arguments are those of its kind and fit their fields encode it, and
/// likewise those of a content header.
pub fn plain_is_encoded()
    ensures method { MethodIsEncoded }
    ensures header { HeaderIsEncoded }
{}

/// No two kinds have the same class id and method id.
pub fn distinct_ids()
    ensures { DistinctIds }
{}

/// Only the client opens a connection or a channel.
pub fn only_client_opens()
    ensures { OnlyClientOpens }
{}

/// Each kind is sent by the client or by the server.
pub fn each_is_sent()
    ensures { EachIsSent }
{}

/// No content follows a method but basic.publish, return, deliver and get-ok.
pub fn content_kinds()
    ensures { ContentKinds }
{}

/// A reply is wanted of exactly the kinds that some method answers, apart from the classes connection and channel, and
/// unless the argument no-wait is set.
pub fn wanted_replies()
    ensures { WantsAsTable }
{}
